// The two kinds of guard: conjunctions over 64 labels, and truth tables over six.
#![tactic(auto)]

pub mod conjunctions;
pub mod truth_tables;

pub use conjunctions::Conjunction;
pub use truth_tables::TruthTable;
