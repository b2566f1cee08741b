// Literals: a label that is asked to be in a choice, or to be out of it.
ghost use Rattle.std.specs.Prelude.{◌≡◌, ℕ, not};
ghost use Rattle.labels.specs.Literals.{holds, opposite};

#[derive(Clone, Copy, PartialEq, Eq)]
pub enum Sign {
    Plus,
    Minus,
}

// A label with its sign. The label is any number: whether it is known is the guard kind's to say.
#[derive(Clone, Copy, PartialEq, Eq)]
pub struct Literal {
    pub sign: Sign,
    pub label: u32,
}

impl Literal {
    // The literal that holds exactly where this one does not.
    pub fn opposite(self) -> Literal
        ensures value { result ≡ opposite self }
        ensures turned { (c : ℕ) → holds result c ≡ not (holds self c) }
    {
        let sign = match self.sign {
            Sign::Plus => Sign::Minus,
            Sign::Minus => Sign::Plus,
        };
        Literal {
            sign,
            label: self.label,
        }
    }
}
