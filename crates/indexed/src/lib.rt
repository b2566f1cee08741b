// A table of rows with an index over its first column.
#![tactic(auto)]

mod entries;
mod index;
pub mod tables;

pub use tables::{INDEXED_COLUMN, Indexed, MOST_ROWS};
