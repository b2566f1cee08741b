// The indexed table: rows, with an index over column 0, and what they offer as a store.
ghost use Rattle.std.specs.Prelude.{◌≡◌, ℕ, ◌≤◌, ℤ, vec_len, vec_capacity};
ghost use Rattle.indexed.specs.Index.{lists};
ghost use Rattle.indexed.specs.Numbers.{first_numbers, stands};

use crate::index::Index;
use rows::Row;

mod methods;
mod store;

pub use methods::MOST_ROWS;
pub use store::Indexed;

// The column that the index is over.
pub const INDEXED_COLUMN: u32 = 0;

// Rows with their index, which lists the number in column 0 of each row, with the row's place.
#[derive(Drop)]
pub(crate) struct IndexedRows<G> {
    rows: Vec<Row<G>>,
    index: Index,
    capacity: u32,
    ghost few: { vec_len rows ≤ capacity },
    ghost limited: { capacity ≤ 4096 },
    ghost reserved: { capacity ≤ vec_capacity rows },
    ghost paired: { vec_len index.entries ≡ vec_len rows },
    ghost room: { capacity ≤ vec_capacity index.entries },
    ghost listed: { (n : ℤ) (p : ℕ) → lists index.entries.items n p ≡ stands (first_numbers rows.items) n p },
}
