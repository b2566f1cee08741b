// A choice: the set of labels that a viewer holds.
ghost use Rattle.std.specs.Prelude.{◌≡◌};
ghost use Rattle.words.specs.Bits.{has, with_label};

use words::bit;

// A set of labels below 64: bit l of the word is 1 when label l is in the set.
#[derive(Clone, Copy, PartialEq, Eq)]
pub struct Choice {
    pub bits: u64,
}

impl Choice {
    // Whether the label is in the choice.
    pub fn has(self, label: u32) -> bool
        ensures { result ≡ has self.bits label }
    {
        bit(self.bits, label)
    }

    // The choice with one label more. There is no room for a label from 64 up.
    pub fn with(self, label: u32) -> Choice
        ensures { result.bits ≡ with_label self.bits label }
    {
        if label < 64 {
            Choice {
                bits: self.bits | (1 << label),
            }
        } else {
            self
        }
    }
}
