// What every store offers.
ghost use Rattle.std.specs.Prelude.{◌≡◌, ◌<◌, true};
ghost use Rattle.stores.specs.Changes.{Add, Put, Remove};
ghost use Rattle.stores.specs.Tables.{Table, facet, no_row, count, Bounded, touches, AllTouch, row_at, has_number, next_place, Lowest};

use faults::Fault;
use labels::{Choice, Guard};
use rows::{Cells, Row};

// A store of rows whose guards are of the kind G. It means a table: the choices that it keeps and its
// capacity, both fixed when it is made, and its rows at the places from 0 up. Questions change nothing.
pub trait Store<G: Guard> {
    // What the store means.
    ghost table: { Self → Table };

    // How many rows there are.
    fn count(&self) -> u32
        ensures { result ≡ count (table self.now) };

    // How many rows there is room for: at most 65,535, and there are never more.
    fn capacity(&self) -> u32
        ensures value { result ≡ (table self.now).capacity }
        ensures bounded { Bounded (table self.now) };

    // Whether the choice is kept.
    fn keeps(&self, choice: Choice) -> bool
        ensures { result ≡ (table self.now).keeps choice.bits };

    // Whether the guard admits a choice that is kept.
    fn touches(&self, guard: G) -> bool
        ensures { result ≡ touches (table self.now) (G.admitted guard) };

    // The row at a place; where there is none, a guard that admits nothing, and zeros.
    fn row(&self, place: u32) -> Row<G>
        ensures value { facet G.admitted result ≡ row_at (table self.now) place }
        ensures touching { place < count (table self.now) → touches (table self.now) (G.admitted result.guard) ≡ true };

    // The lowest place at or after `from` whose row has the number in the column, if there is one.
    fn next(&self, from: u32, column: u32, number: i32) -> Option<u32>
        ensures value { result ≡ next_place (table self.now) from column number }
        ensures lowest { Lowest (count (table self.now)) (has_number (table self.now) column number) from result }
    {
        // A `for`: over a chain by `find` a lookup in a heap took one and a half times as long, and more.
        for place in from..self.count() {
            if self.row(place).cells.has(column, number) {
                return Some(place);
            }
        }
        None
    }

    // Adds a row behind the others.
    fn add(&mut self, row: &Row<G>) -> Result<(), Fault>
        ensures { Add (self.new ≡ self.old) (table self.old) (table self.new) (facet G.admitted row.now) result };

    // Puts a row in the place of another.
    fn put(&mut self, place: u32, row: &Row<G>) -> Result<(), Fault>
        ensures { Put (self.new ≡ self.old) (table self.old) (table self.new) place (facet G.admitted row.now) result };

    // Takes a row out.
    fn remove(&mut self, place: u32) -> Result<(), Fault>
        ensures { Remove (self.new ≡ self.old) (table self.old) (table self.new) place result };

    // Each row that is stored touches the store.
    ghost touching: { (s : Self) → AllTouch (table s) };
}

// What stands at a place with no row.
pub fn no_row<G: Guard>() -> Row<G>
    ensures { facet G.admitted result ≡ no_row }
{
    Row {
        guard: G::nothing(),
        cells: Cells::zeros(),
    }
}
