// What the indexed table is made of.
ghost use Rattle.std.specs.Prelude.{◌≡◌, ◌<◌, min, [], ◌∷◌, ◌++◌, pos, IfOk, vec_len, ◌==◌, nat_le, nat_lt, slice_index_or, slice_set};
ghost use Rattle.std.specs.List.{slice_get};
ghost use Rattle.labels.specs.Guards.{everything};
ghost use Rattle.rows.specs.Cells.{cell};
ghost use Rattle.stores.specs.Tables.{empty_table, facet};
ghost use Rattle.indexed.specs.Numbers.{first_numbers};
ghost use Rattle.indexed.specs.Tables.{rows_table, with_rows, moved_last};

use crate::entries::Entry;
use crate::index::Index;
use crate::tables::{INDEXED_COLUMN, IndexedRows};
use labels::Guard;
use rows::Row;
use std::alloc::{AllocError, Global};

// How many rows an indexed table has at most.
pub const MOST_ROWS: u32 = 4096;

// Whether the index is over the column.
pub(super) fn is_indexed(column: u32) -> bool
    ensures { result ≡ (column == 0) }
{
    column == INDEXED_COLUMN
}

// The number in the indexed column.
fn first_number<G>(row: &Row<G>) -> i32
    ensures { result ≡ cell 0 row.now.cells }
{
    row.cells.values[INDEXED_COLUMN as usize]
}

impl<G: Guard> IndexedRows<G> {
    // No row, and room for this many, at most 4,096. All the memory is got here.
    pub(super) fn new(heap: Global, capacity: u32) -> Result<IndexedRows<G>, AllocError>
        ensures { IfOk result (λ t. rows_table G.admitted t ≡ empty_table everything (min capacity 4096)) }
    {
        let capacity = capacity.min(MOST_ROWS);
        Ok(IndexedRows {
            rows: Vec::with_capacity(heap, capacity as usize)?,
            index: Index::new(heap, capacity as usize)?,
            capacity,
        })
    }

    // How many rows there are.
    pub(super) fn len(&self) -> u32
        ensures { result ≡ vec_len self.now.rows }
    {
        self.rows.len() as u32
    }

    // Whether there is no room for another row.
    pub(super) fn is_full(&self) -> bool
        ensures { result ≡ nat_le self.now.capacity (vec_len self.now.rows) }
    {
        self.len() >= self.capacity
    }

    // Whether there is a row at the place.
    pub(super) fn has_row(&self, place: u32) -> bool
        ensures { result ≡ nat_lt place (vec_len self.now.rows) }
    {
        place < self.len()
    }

    // The row at the place, if there is one.
    pub(super) fn get(&self, place: u32) -> Option<Row<G>>
        ensures { result ≡ slice_get self.now.rows.items place }
    {
        self.rows.get(place as usize).copied()
    }

    // The row at the place, where there is one. That there is one is asked here and below in as many words: a name
    // for it would be no shorter.
    pub(super) fn stored(&self, place: u32) -> Row<G>
        requires { place < vec_len self.now.rows }
        ensures { result ≡ slice_index_or self.now.rows.items place result }
    {
        self.rows[place as usize]
    }

    // The number in the indexed column of the row at the place.
    fn number_at(&self, place: u32) -> i32
        requires { place < vec_len self.now.rows }
        ensures { result ≡ slice_index_or (first_numbers self.now.rows.items) place (pos 0) }
    {
        first_number(&self.stored(place))
    }

    // Adds a row behind the others, where there is room.
    pub(super) fn append(&mut self, row: &Row<G>)
        requires { vec_len self.old.rows < self.old.capacity }
        ensures { rows_table G.admitted self.new ≡ with_rows (rows_table G.admitted self.old) ((rows_table G.admitted self.old).rows ++ facet G.admitted row.now ∷ []) }
    {
        let entry = Entry {
            number: first_number(row),
            place: self.len(),
        };
        self.index.insert(entry);
        self.rows.push_reserved(*row);
    }

    // Puts a row in the place of another. Not inlined, so that a place with no row is refused at once.
    #[inline(never)]
    pub(super) fn replace(&mut self, place: u32, row: &Row<G>)
        requires { place < vec_len self.old.rows }
        ensures { rows_table G.admitted self.new ≡ with_rows (rows_table G.admitted self.old) (slice_set (rows_table G.admitted self.old).rows place (facet G.admitted row.now)) }
    {
        let old = Entry {
            number: self.number_at(place),
            place,
        };
        self.index.renumber(old, first_number(row));
        self.rows[place as usize] = *row;
    }

    // Takes a row out, and moves the last row into the gap. Not inlined, for the same reason.
    #[inline(never)]
    pub(super) fn take_out(&mut self, place: u32)
        requires { place < vec_len self.old.rows }
        ensures { rows_table G.admitted self.new ≡ with_rows (rows_table G.admitted self.old) (moved_last (rows_table G.admitted self.old).rows place) }
    {
        let gap = Entry {
            number: self.number_at(place),
            place,
        };
        let end = self.len() - 1;
        let last = Entry {
            number: self.number_at(end),
            place: end,
        };
        self.index.close_gap(gap, last);
        self.rows.swap_remove(place as usize);
    }
}
