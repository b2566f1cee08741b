// What the indexed table offers as a store.
ghost use Rattle.stores.specs.Tables.{AllTouch};
ghost use Rattle.indexed.specs.Tables.{rows_table};

use crate::tables::IndexedRows;
use crate::tables::methods::is_indexed;
use faults::{Fault, Refusal};
use labels::{Choice, Guard};
use rows::Row;
use std::alloc::{AllocError, Global};
use stores::{Store, no_row};

// The indexed table keeps every choice.
#[derive(Drop)]
pub struct Indexed<G: Guard> {
    rows: IndexedRows<G>,
    ghost touching: { AllTouch (rows_table G.admitted rows) },
}

impl<G: Guard> Indexed<G> {
    ghost use Rattle.std.specs.Prelude.{◌≡◌, min, IfOk};
    ghost use Rattle.labels.specs.Guards.{everything};
    ghost use Rattle.stores.specs.Tables.{empty_table};
    ghost use Rattle.indexed.specs.Stored.{indexed_table};

    // A table with no row, and room for this many, at most 4,096. All its memory is got here.
    pub fn new(heap: Global, capacity: u32) -> Result<Indexed<G>, AllocError>
        ensures { IfOk result (λ t. indexed_table G.Guard t ≡ empty_table everything (min capacity 4096)) }
    {
        let rows = IndexedRows::new(heap, capacity)?;
        Ok(Indexed { rows })
    }
}

impl<G: Guard> Store<G> for Indexed<G> {
    ghost use Rattle.std.specs.Prelude.{◌≡◌, ◌<◌, false};
    ghost use Rattle.stores.specs.Changes.{Put, Remove};
    ghost use Rattle.stores.specs.Tables.{facet, count, touches};
    ghost use Rattle.indexed.specs.Stored.{indexed_table};
    ghost use Rattle.indexed.specs.Tables.{moved_last};

    ghost table = { indexed_table G.Guard };

    ghost touching = { λ t. t.touching };

    fn count(&self) -> u32 {
        self.rows.len()
    }

    fn capacity(&self) -> u32 {
        self.rows.capacity
    }

    // This and `touches` stand in the heap too: shared, they would take a type between stores and rows.
    fn keeps(&self, _choice: Choice) -> bool {
        true
    }

    fn touches(&self, guard: G) -> bool {
        !guard.is_empty()
    }

    fn row(&self, place: u32) -> Row<G> {
        self.rows.get(place).unwrap_or(no_row())
    }

    // In the indexed column through the index, in any other row by row. That is the trait's own search, which a
    // method that stands in for it cannot call, over the rows as they are stored.
    fn next(&self, from: u32, column: u32, number: i32) -> Option<u32> {
        if is_indexed(column) {
            return self.rows.index.lowest(number, from);
        }
        for place in from..self.rows.len() {
            if self.rows.stored(place).cells.has(column, number) {
                return Some(place);
            }
        }
        None
    }

    fn add(&mut self, row: &Row<G>) -> Result<(), Fault> {
        if row.guard.is_empty() {
            return Ok(());
        }
        if self.rows.is_full() {
            return Err(Fault::new(Refusal::TableFull, 0));
        }
        self.rows.append(row);
        Ok(())
    }

    // Where the row does not touch the table, the last row moves into the gap.
    fn put(&mut self, place: u32, row: &Row<G>) -> Result<(), Fault>
        ensures change { Put (self.new ≡ self.old) (indexed_table G.Guard self.old) (indexed_table G.Guard self.new) place (facet G.admitted row.now) result }
        ensures moves { touches (indexed_table G.Guard self.old) (G.admitted row.now.guard) ≡ false → place < count (indexed_table G.Guard self.old) → (indexed_table G.Guard self.new).rows ≡ moved_last (indexed_table G.Guard self.old).rows place }
    {
        if row.guard.is_empty() {
            return self.remove(place);
        }
        if !self.rows.has_row(place) {
            return Err(Fault::new(Refusal::PlaceOutOfRange, place));
        }
        self.rows.replace(place, row);
        Ok(())
    }

    // The last row moves into the gap.
    fn remove(&mut self, place: u32) -> Result<(), Fault>
        ensures change { Remove (self.new ≡ self.old) (indexed_table G.Guard self.old) (indexed_table G.Guard self.new) place result }
        ensures moves { place < count (indexed_table G.Guard self.old) → (indexed_table G.Guard self.new).rows ≡ moved_last (indexed_table G.Guard self.old).rows place }
    {
        if !self.rows.has_row(place) {
            return Err(Fault::new(Refusal::PlaceOutOfRange, place));
        }
        self.rows.take_out(place);
        Ok(())
    }
}
