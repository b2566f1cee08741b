// Rows, and the one list that carries entries of every kind.
#![tactic(auto)]

pub mod cells;
pub mod lists;

pub use cells::{Cells, Row, WIDTH};
pub use lists::{List, MOST_ENTRIES};
