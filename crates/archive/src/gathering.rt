// Before a set or a cut lets the table grow, the rows of which nothing is left go.
ghost use Rattle.std.specs.Prelude.{◌≡◌, ◌-◌, ◌<◌, ◌≤◌, slice_set};
ghost use Rattle.stores.specs.Tables.{facet, count, row_at};
ghost use Rattle.archive.specs.Rules.{at_kept};
ghost use Rattle.archive.specs.Turns.{given, is_left, rows_left, shown, Gathered, Shortened, Shows};

use crate::rewriting::Rewrite;
use labels::Guard;
use rows::Row;
use stores::Store;

// Moves the row at a place down to the next free one, if it does not stand there.
fn move_down<G: Guard, S: Store<G>>(store: &mut S, place: u32, free: u32, row: &Row<G>)
    ensures { free ≤ place → place < count (S.table store.old) → facet G.admitted row.now ≡ row_at (S.table store.old) place → Shows (S.table store.old) (S.table store.new) (slice_set (shown (S.table store.old)) free (at_kept (S.table store.old).keeps (facet G.admitted row.now))) }
{
    if free < place {
        let _ = store.put(free, row);
    }
}

// Takes the last row out, if there is one.
#[tactic(auto, using(crate::proofs::Front::shortened_last))]
fn remove_last<G: Guard, S: Store<G>>(store: &mut S)
    ensures { Shortened (S.table store.old) (S.table store.new) (count (S.table store.old) - 1) }
{
    let count = store.count();
    if count > 0 {
        let _ = store.remove(count - 1);
    }
}

// Takes rows out from the end until this many are left.
fn shorten<G: Guard, S: Store<G>>(store: &mut S, left: u32)
    ensures { left ≤ count (S.table store.old) → Shortened (S.table store.old) (S.table store.new) left }
{
    for _row in left..store.count() {
        remove_last(store);
    }
}

impl Rewrite<'_> {
    // Moves the rows of which something is left to the front, and tells how many they are.
    fn move_up<G: Guard, S: Store<G>>(&self, store: &mut S) -> u32
        ensures { Gathered (is_left (S.table store.old) (given G.known self.now)) (S.table store.old) (S.table store.new) result }
    {
        // A loop that counts, since each turn changes the store.
        let mut free = 0;
        for place in 0..store.count() {
            let row = store.row(place);
            if self.count_parts(store, &row) > 0 {
                move_down(store, place, free, &row);
                free += 1;
            }
        }
        free
    }

    // Leaves only the rows of which something is left.
    pub(crate) fn gather<G: Guard, S: Store<G>>(&self, store: &mut S)
        ensures { Shows (S.table store.old) (S.table store.new) (rows_left (S.table store.old) (given G.known self.now)) }
    {
        let left = self.move_up(store);
        shorten(store, left);
    }
}
