// What a call answers when it turns its caller back: which refusal, on which line, at which place.
#![tactic(auto)]

ghost use Rattle.std.specs.Prelude.{◌≡◌, Some};
ghost use Rattle.faults.specs.Faults.{code, fault, fault_text, unless, answered};

use std::error::Error;
use std::fmt;

// The part of the engine that a fault is told by.
#[derive(Clone, Copy, PartialEq, Eq)]
pub enum Layer {
    Text,
    Statement,
    Store,
}

// Why a call was turned back. The discriminants are the numbers that users see.
#[derive(Clone, Copy, PartialEq, Eq, Debug)]
pub enum Refusal {
    WordNotAllowed = 11,
    NotANumber = 12,
    WordsLeftOver = 13,
    LineTooLong = 14,
    LimitExceeded = 15,
    FormOutOfPlace = 16,
    UnknownColumn = 21,
    UnknownLabel = 22,
    CountOutOfLimits = 23,
    TestOutOfForm = 24,
    TableFull = 31,
    AnswerFull = 32,
    SheetFull = 33,
    PartnersFull = 34,
    ViewerOutOfRange = 41,
    DayOutOfRange = 42,
    ChoiceNotKept = 43,
    PlaceOutOfRange = 51,
    StoreNotEmpty = 52,
}

impl Refusal {
    // The number that users see. No other refusal has it.
    #[tactic(auto, using(crate::proofs::Told::same_refusal))]
    pub fn number(self) -> u32
        ensures value { result ≡ (code self).number }
        ensures only { (other : Refusal) → (code other).number ≡ result → other ≡ self }
    {
        self as u32
    }

    // The layer that tells it.
    pub fn layer(self) -> Layer
        ensures { result ≡ (code self).layer }
    {
        match self {
            Refusal::WordNotAllowed
            | Refusal::NotANumber
            | Refusal::WordsLeftOver
            | Refusal::LineTooLong
            | Refusal::LimitExceeded
            | Refusal::FormOutOfPlace => Layer::Text,
            Refusal::UnknownColumn
            | Refusal::UnknownLabel
            | Refusal::CountOutOfLimits
            | Refusal::TestOutOfForm
            | Refusal::ViewerOutOfRange
            | Refusal::DayOutOfRange
            | Refusal::ChoiceNotKept => Layer::Statement,
            Refusal::TableFull
            | Refusal::AnswerFull
            | Refusal::SheetFull
            | Refusal::PartnersFull
            | Refusal::PlaceOutOfRange
            | Refusal::StoreNotEmpty => Layer::Store,
        }
    }
}

// A refusal with where it was met: the script's line, from 1 (0 outside a script), and the place
// that the refusal speaks of.
#[derive(Clone, Copy, Debug, PartialEq, Eq)]
pub struct Fault {
    pub refusal: Refusal,
    pub line: u32,
    pub place: u32,
}

impl Fault {
    // A fault outside a script.
    pub fn new(refusal: Refusal, place: u32) -> Fault
        ensures { result ≡ fault refusal place }
    {
        Fault {
            refusal,
            line: 0,
            place,
        }
    }
}

impl fmt::Display for Fault {
    ghost output = { λ f. Some (fault_text f) };

    fn fmt<W: fmt::Write>(&self, f: &mut fmt::Formatter<W>) -> fmt::Result {
        let number = self.refusal.number();
        let place = self.place;
        write!(f, "refusal {number} at place {place}")
    }
}

impl Error for Fault {}

// Tells the refusal, at the place, unless all is well.
pub fn refuse_unless(ok: bool, refusal: Refusal, place: u32) -> Result<(), Fault>
    ensures { result ≡ answered (unless ok refusal place) }
{
    if ok {
        Ok(())
    } else {
        Err(Fault::new(refusal, place))
    }
}
