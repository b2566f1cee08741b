// The archive: two tables, the four statements on them, and what every viewer can learn of them.
#![tactic(auto)]

pub mod changes;
mod gathering;
mod rewriting;
mod spreading;
mod statements;

pub use changes::{Change, TableName};
