// Each row that a set or a cut changes gives way to its parts.
ghost use Rattle.std.specs.Prelude.{◌≡◌, ℕ, ◌<◌, true, List, map};
ghost use Rattle.rows.specs.declared.cells.Cells.{Cells};
ghost use Rattle.stores.specs.Tables.{Facet, Table, facet, count, row_at, touches};
ghost use Rattle.archive.specs.Rules.{at_kept, inside, outside};
ghost use Rattle.archive.specs.Turns.{path_of, given, parts, shown, placed, with_part, inside_then, rows_spread, Shows, Placing, Room, Spreadable, Takes};

use crate::changes::Change;
use crate::rewriting::{Rewrite, turned_away};
use labels::Guard;
use rows::Row;
use stores::Store;

// Stores one part of a row: at the free place, or behind all rows where none is free.
#[tactic(auto, using(crate::proofs::Placed::part_there, crate::proofs::Placed::part_behind))]
fn place_part<G: Guard, S: Store<G>>(store: &mut S, free: Option<u32>, part: &Row<G>)
    ensures { touches (S.table store.old) (G.admitted part.now.guard) ≡ true → Takes (S.table store.old) free → Shows (S.table store.old) (S.table store.new) (with_part (shown (S.table store.old)) free (at_kept (S.table store.old).keeps (facet G.admitted part.now))) }
{
    let _ = match free {
        Some(place) => store.put(place, part),
        None => store.add(part),
    };
}

impl Rewrite<'_> {
    // Stores the part inside the path in the place of the row, if there is one; else the place is
    // still free.
    fn place_inside<G: Guard, S: Store<G>>(
        &self,
        store: &mut S,
        place: u32,
        row: &Row<G>,
    ) -> Option<u32>
        ensures { place < count (S.table store.old) → touches (S.table store.old) (inside G.known (path_of self.now) (facet G.admitted row.now)).guard ≡ true → (still : List (Facet Cells)) → Placing (S.table store.old) (S.table store.new) place result still (inside_then (S.table store.old) (given G.known self.now) (facet G.admitted row.now) still) }
    {
        match self.change {
            Change::Set(column, number) => {
                let part = Row {
                    guard: self.guard_inside(row),
                    cells: row.cells.with(column, number),
                };
                place_part(store, Some(place), &part);
                None
            }
            Change::Cut => Some(place),
        }
    }

    // Stores the parts outside the path: the first at the free place, if there is one.
    fn place_outside<G: Guard, S: Store<G>>(
        &self,
        store: &mut S,
        row: &Row<G>,
        mut free: Option<u32>,
    )
        ensures { (start : Table) (place : ℕ) (whole : List (Facet Cells)) → Room start place whole → Placing start (S.table store.old) place free (map (at_kept start.keeps) (outside start G.known (path_of self.now) (facet G.admitted row.now))) whole → Shows start (S.table store.new) (placed (shown start) place whole) }
    {
        let mut guard = row.guard;
        let literals = self.path.as_slice();
        for literal in literals {
            let part = Row {
                guard: turned_away(guard, *literal),
                cells: row.cells,
            };
            if store.touches(part.guard) {
                place_part(store, free.take(), &part);
            }
            guard = guard.narrowed(*literal);
        }
    }

    // Puts the parts of the row at a place where the row was.
    fn spread_row<G: Guard, S: Store<G>>(&self, store: &mut S, place: u32, row: &Row<G>)
        ensures { facet G.admitted row.now ≡ row_at (S.table store.old) place → Room (S.table store.old) place (parts (S.table store.old) (given G.known self.now) (facet G.admitted row.now)) → Shows (S.table store.old) (S.table store.new) (placed (shown (S.table store.old)) place (parts (S.table store.old) (given G.known self.now) (facet G.admitted row.now))) }
    {
        if self.concerns(store, row) {
            let free = self.place_inside(store, place, row);
            self.place_outside(store, row, free);
        }
    }

    // Puts the parts of each row where the row was, and those that are more than one behind all rows.
    pub(crate) fn spread<G: Guard, S: Store<G>>(&self, store: &mut S)
        ensures { Spreadable (S.table store.old) (given G.known self.now) → Shows (S.table store.old) (S.table store.new) (rows_spread (S.table store.old) (given G.known self.now)) }
    {
        for place in 0..store.count() {
            let row = store.row(place);
            self.spread_row(store, place, &row);
        }
    }
}
