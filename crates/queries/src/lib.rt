// Tests and queries: what a statement asks of a row, and what an asking shows.
#![tactic(auto)]

pub mod arms;
mod checks;
pub mod nodes;

pub use arms::{Arm, MOST_ARMS, Query, Source};
pub use nodes::{MOST_NODES, Node, Test};
