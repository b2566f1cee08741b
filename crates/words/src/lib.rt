// Words of 64 bits, read bit by bit.
#![tactic(auto)]

ghost use Rattle.std.specs.Prelude.{◌≡◌};
ghost use Rattle.words.specs.Bits.{has};

// Whether bit `at` of the word is 1. A word has none from 64 up.
#[tactic(auto, using(crate::proofs::Digits::has_shifted))]
pub fn bit(word: u64, at: u32) -> bool
    ensures { result ≡ has word at }
{
    word.unbounded_shr(at) % 2 == 1
}
