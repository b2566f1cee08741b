// The heap: rows in borrowed memory, in the order in which they were added.
ghost use Rattle.stores.specs.Listed.{listed_table};
ghost use Rattle.stores.specs.Tables.{AllTouch};

use crate::tables::{Store, no_row};
use faults::{Fault, Refusal};
use labels::{Choice, Guard};
use rows::{List, Row};

// It keeps every choice, and takes as many rows as its memory has slots, at most 65,535.
#[derive(Drop)]
pub struct Heap<'a, G: Guard> {
    rows: List<'a, Row<G>>,
    ghost touching: { AllTouch (listed_table G.admitted rows) },
}

impl<'a, G: Guard> Heap<'a, G> {
    ghost use Rattle.std.specs.Prelude.{◌≡◌, min, length};
    ghost use Rattle.labels.specs.Guards.{everything};
    ghost use Rattle.stores.specs.Heaps.{heap_table};
    ghost use Rattle.stores.specs.Tables.{empty_table};

    // A heap with no row, in this memory.
    pub fn new(slots: &'a mut [Row<G>]) -> Heap<'a, G>
        ensures { heap_table G.Guard result ≡ empty_table everything (min (length slots.old) 65535) }
    {
        Heap {
            rows: List::new(slots),
        }
    }
}

impl<'a, G: Guard> Store<G> for Heap<'a, G> {
    ghost use Rattle.std.specs.Prelude.{◌≡◌, false};
    ghost use Rattle.std.specs.List.{remove};
    ghost use Rattle.stores.specs.Changes.{Put, Remove};
    ghost use Rattle.stores.specs.Heaps.{heap_table};
    ghost use Rattle.stores.specs.Tables.{facet, touches};

    ghost table = { heap_table G.Guard };

    ghost touching = { λ h. h.touching };

    fn count(&self) -> u32 {
        self.rows.len() as u32
    }

    fn capacity(&self) -> u32 {
        self.rows.capacity() as u32
    }

    // This and `touches` stand in the indexed table too: shared, they would take a type between stores and rows.
    fn keeps(&self, _choice: Choice) -> bool {
        true
    }

    fn touches(&self, guard: G) -> bool {
        !guard.is_empty()
    }

    fn row(&self, place: u32) -> Row<G> {
        self.rows.get(place as usize).unwrap_or(no_row())
    }

    fn add(&mut self, row: &Row<G>) -> Result<(), Fault> {
        if row.guard.is_empty() {
            return Ok(());
        }
        // A `match` here and below: through `map_err` and `ok_or` the two outcomes were not proved.
        match self.rows.push(*row) {
            Ok(()) => Ok(()),
            Err(_) => Err(Fault::new(Refusal::TableFull, 0)),
        }
    }

    // Where the row does not touch the heap, those behind the gap move up.
    fn put(&mut self, place: u32, row: &Row<G>) -> Result<(), Fault>
        ensures change { Put (self.new ≡ self.old) (heap_table G.Guard self.old) (heap_table G.Guard self.new) place (facet G.admitted row.now) result }
        ensures closes { touches (heap_table G.Guard self.old) (G.admitted row.now.guard) ≡ false → (heap_table G.Guard self.new).rows ≡ remove (heap_table G.Guard self.old).rows place }
    {
        if row.guard.is_empty() {
            return self.remove(place);
        }
        match self.rows.set(place as usize, *row) {
            Some(_) => Ok(()),
            None => Err(Fault::new(Refusal::PlaceOutOfRange, place)),
        }
    }

    // The rows behind the gap move up.
    fn remove(&mut self, place: u32) -> Result<(), Fault>
        ensures change { Remove (self.new ≡ self.old) (heap_table G.Guard self.old) (heap_table G.Guard self.new) place result }
        ensures closes { (heap_table G.Guard self.new).rows ≡ remove (heap_table G.Guard self.old).rows place }
    {
        match self.rows.remove(place as usize) {
            Some(_) => Ok(()),
            None => Err(Fault::new(Refusal::PlaceOutOfRange, place)),
        }
    }
}
