// What add, set and cut do to one table.
ghost use Rattle.std.specs.Prelude.{◌≡◌, OnOk, OnErr, nat_le};
ghost use Rattle.labels.specs.Paths.{literals};
ghost use Rattle.faults.specs.Faults.{answered};
ghost use Rattle.stores.specs.Tables.{count, Bounded};
ghost use Rattle.archive.specs.Rules.{path_fault, columns_fault, room_fault, add_fault, added_rows, change_fault, rewritten_rows, NowHolds};
ghost use Rattle.archive.specs.Runs.{place_of};
ghost use Rattle.archive.specs.Turns.{test_of, given, ruled};

use crate::changes::TableName;
use crate::rewriting::Rewrite;
use faults::{Fault, Refusal, refuse_unless};
use labels::{Guard, Path};
use rows::{Cells, Row, WIDTH};
use stores::Store;

// Tells the first literal of the path whose label is not known. Not by the check that queries have for their arms:
// that one asks its callers for short lists, and so is not public.
pub(crate) fn check_labels<G: Guard>(path: &Path) -> Result<(), Fault>
    ensures { result ≡ answered (path_fault G.known (literals path.now)) }
{
    let known = G::label_count();
    let literals = path.as_slice();
    match literals.iter().position(|literal| literal.label >= known) {
        Some(position) => Err(Fault::new(Refusal::UnknownLabel, position as u32)),
        None => Ok(()),
    }
}

impl Rewrite<'_> {
    // Tells whether a column does not exist.
    fn check_columns(&self) -> Result<(), Fault>
        ensures { result ≡ answered (columns_fault (test_of self.now) self.now.change) }
    {
        let within = self.change.is_within() && self.test.columns_within(WIDTH as u32);
        refuse_unless(within, Refusal::UnknownColumn, 0)
    }

    // Tells whether the final rows do not fit the table of this name.
    fn check_room<G: Guard, S: Store<G>>(&self, store: &S, name: TableName) -> Result<(), Fault>
        ensures { result ≡ answered (room_fault (S.table store.now) (place_of name) (ruled (rewritten_rows (S.table store.now)) (given G.known self.now))) }
    {
        let fits = self.count_rows(store) <= store.capacity() as usize;
        refuse_unless(fits, Refusal::TableFull, name.place())
    }

    // Tells why the statement is refused on the table of this name, if it is.
    fn check<G: Guard, S: Store<G>>(&self, store: &S, name: TableName) -> Result<(), Fault>
        ensures { result ≡ answered (ruled (change_fault (place_of name) (S.table store.now)) (given G.known self.now)) }
    {
        self.test.check()?;
        check_labels::<G>(self.path)?;
        self.check_columns()?;
        self.check_room(store, name)
    }

    // Carries the statement out on the table of this name.
    pub(crate) fn carry_out<G: Guard, S: Store<G>>(
        &self,
        store: &mut S,
        name: TableName,
    ) -> Result<(), Fault>
        ensures answer { result ≡ answered (ruled (change_fault (place_of name) (S.table store.old)) (given G.known self.now)) }
        ensures done { OnOk result (NowHolds (S.table store.old) (S.table store.new) (ruled (rewritten_rows (S.table store.old)) (given G.known self.now))) }
        ensures unchanged { OnErr result (store.new ≡ store.old) }
    {
        self.check(&*store, name)?;
        self.gather(store);
        self.spread(store);
        Ok(())
    }
}

// Whether a table has all the rows that it takes.
fn is_full<G: Guard, S: Store<G>>(store: &S) -> bool
    ensures value { result ≡ nat_le (S.table store.now).capacity (count (S.table store.now)) }
    ensures bounded { Bounded (S.table store.now) }
{
    store.count() >= store.capacity()
}

// An add, by what it is given.
#[derive(Clone, Copy)]
pub struct Addition<'a> {
    pub path: &'a Path,
    pub cells: &'a Cells,
}

impl Addition<'_> {
    // Tells why the row is not added to the table of this name, if it is not.
    #[tactic(auto, using(crate::proofs::Checked::fits_apart, crate::proofs::Checked::fits_unless_full))]
    fn check_add<G: Guard, S: Store<G>>(&self, store: &S, name: TableName) -> Result<(), Fault>
        ensures { result ≡ answered (add_fault (place_of name) (S.table store.now) G.known (literals self.now.path.now) self.now.cells.now) }
    {
        check_labels::<G>(self.path)?;
        if is_full(store) && store.touches(self.path.guard()) {
            return Err(Fault::new(Refusal::TableFull, name.place()));
        }
        Ok(())
    }

    // Adds the row, for the choices at which the path holds, to the table of this name.
    pub(crate) fn carry_out<G: Guard, S: Store<G>>(
        &self,
        store: &mut S,
        name: TableName,
    ) -> Result<(), Fault>
        ensures answer { result ≡ answered (add_fault (place_of name) (S.table store.old) G.known (literals self.now.path.now) self.now.cells.now) }
        ensures done { OnOk result (NowHolds (S.table store.old) (S.table store.new) (added_rows (S.table store.old) G.known (literals self.now.path.now) self.now.cells.now)) }
        ensures unchanged { OnErr result (store.new ≡ store.old) }
    {
        self.check_add(&*store, name)?;
        let row = Row {
            guard: self.path.guard(),
            cells: *self.cells,
        };
        let _ = store.add(&row);
        Ok(())
    }
}
