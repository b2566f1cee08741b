// Stores of faceted rows: what every store offers, the heap, and pruning.
#![tactic(auto)]

pub mod heaps;
pub mod pruned;
pub mod tables;

pub use heaps::Heap;
pub use pruned::Pruned;
pub use tables::{Store, no_row};
