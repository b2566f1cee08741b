// The table kind: whether each choice of six labels is admitted, bit by bit.
ghost use Rattle.std.specs.Prelude.{◌≡◌};
ghost use Rattle.labels.specs.Guards.{everything, literal_guard, meet};
ghost use Rattle.guards.specs.Tables.{table_admits, table_word, literal_word};
ghost use Rattle.guards.specs.Tabled;
ghost use Rattle.std.proofs.Common.{rules};

use labels::{Choice, Guard, Literal, Sign};
use words::bit;

// Bit c of entry l is 1 exactly if choice c has label l.
const WITH_LABEL: [u64; 6] = [
    0xAAAA_AAAA_AAAA_AAAA,
    0xCCCC_CCCC_CCCC_CCCC,
    0xF0F0_F0F0_F0F0_F0F0,
    0xFF00_FF00_FF00_FF00,
    0xFFFF_0000_FFFF_0000,
    0xFFFF_FFFF_0000_0000,
];

// Bit c of the word is 1 exactly if choice c is admitted.
// Any word is a table, so the word is public, and clauses name it.
#[derive(Clone, Copy, PartialEq, Eq)]
pub struct TruthTable {
    pub word: u64,
}

// The word of the choices at which the literal holds.
// A function of its own, since each of its three outcomes would owe both promises of `of_literal`.
fn holding_word(literal: Literal) -> u64
    ensures { result ≡ literal_word literal }
{
    match (WITH_LABEL.get(literal.label as usize), literal.sign) {
        (None, _) => 0,
        (Some(with_label), Sign::Plus) => *with_label,
        (Some(with_label), Sign::Minus) => !*with_label,
    }
}

// It knows the labels that have an entry.
impl Guard for TruthTable {
    ghost known = { 6 };

    ghost admitted = { λ g. table_admits g.word };

    ghost few = { Prim.search rules };

    ghost ignores = { λ g. Tabled.ignores g.word };

    fn label_count() -> u32 {
        WITH_LABEL.len() as u32
    }

    #[tactic(auto, using(crate::specs::Tabled::all_admitted, crate::specs::Tabled::full_word))]
    fn everything() -> TruthTable
        ensures admitted { table_admits result.word ≡ everything }
        ensures value { result.word ≡ table_word everything }
    {
        TruthTable { word: u64::MAX }
    }

    #[tactic(auto, using(crate::specs::Tabled::literal_admits, crate::specs::Tabled::word_by_literal))]
    fn of_literal(literal: Literal) -> TruthTable
        ensures admitted { table_admits result.word ≡ literal_guard 6 literal }
        ensures value { result.word ≡ table_word (literal_guard 6 literal) }
    {
        TruthTable {
            word: holding_word(literal),
        }
    }

    #[tactic(auto, using(crate::specs::Tabled::meet_admits, crate::specs::Tabled::meet_word))]
    fn meet(self, other: TruthTable) -> TruthTable
        ensures admitted { table_admits result.word ≡ meet (table_admits self.word) (table_admits other.word) }
        ensures value { result.word ≡ table_word (meet (table_admits self.word) (table_admits other.word)) }
    {
        TruthTable {
            word: self.word & other.word,
        }
    }

    #[tactic(auto, unfolding(crate::specs::Tables::table_admits))]
    fn admits(self, choice: Choice) -> bool {
        bit(self.word, (choice.bits % 64) as u32)
    }

    #[tactic(auto, using(crate::specs::Tabled::empty_by_word))]
    fn is_empty(self) -> bool {
        self.word == 0
    }
}
