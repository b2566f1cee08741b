// Worked cases: small facts about the definitions that a reader can follow by hand, stated together
// and proved.
#![tactic(auto)]

ghost use Rattle.std.specs.Prelude.{◌≡◌, true};
ghost use Rattle.guards.specs.Conjunctions.{literal_words, meet_words};
ghost use Rattle.labels.specs.Literals.{opposite};
ghost use Rattle.cases.specs.Worked.{Meanings, Changes, WorkedCases};

use guards::{Conjunction, TruthTable};
use labels::{Guard, Literal, Sign};

// What the code answers in the worked cases.
#[derive(Clone, Copy)]
pub struct Answers {
    // +3 met with -3, in the conjunction kind, is empty.
    pub contradiction_is_empty: bool,
    // The word of +5 in the table kind.
    pub fifth_label: u64,
}

// The literal's guard met with that of its opposite, in the conjunction kind.
fn met_with_opposite(literal: Literal) -> Conjunction
    ensures { result ≡ meet_words (literal_words literal) (literal_words (opposite literal)) }
{
    let holds: Conjunction = Guard::of_literal(literal);
    holds.meet(Guard::of_literal(literal.opposite()))
}

// Runs the worked cases. The definitions mean what they should, the cases hold of them, and the code
// answers accordingly.
#[tactic(auto, using(crate::proofs::Changed::changes, crate::proofs::Shown::meanings, crate::proofs::Shown::worked))]
pub fn worked_cases() -> Answers
    ensures meant { Meanings }
    ensures changed { Changes }
    ensures proved { WorkedCases }
    ensures run { result ≡ record { contradiction_is_empty = true; fifth_label = 0xFFFFFFFF00000000 } }
{
    let third = Literal {
        sign: Sign::Plus,
        label: 3,
    };
    let fifth = Literal {
        sign: Sign::Plus,
        label: 5,
    };
    let table: TruthTable = Guard::of_literal(fifth);
    Answers {
        contradiction_is_empty: met_with_opposite(third).is_empty(),
        fifth_label: table.word,
    }
}

#[cfg(test)]
mod store_tests;
#[cfg(test)]
mod tests;
