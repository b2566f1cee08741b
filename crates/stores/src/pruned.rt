// Pruning: a store that keeps only the choices which a guard admits, over any store.
ghost use Rattle.stores.specs.Pruned.{pruned_table};
ghost use Rattle.stores.specs.Tables.{AllTouch};

use crate::tables::Store;
use faults::{Fault, Refusal, refuse_unless};
use labels::{Choice, Guard};
use rows::Row;

// Rows go to the store below met with the guard, so that it holds nothing for other choices.
#[derive(Drop)]
pub struct Pruned<S: Store<G>, G: Guard> {
    below: S,
    guard: G,
    ghost touching: { AllTouch (pruned_table (S.table below) (G.admitted guard)) },
}

impl<G: Guard, S: Store<G>> Pruned<S, G> {
    ghost use Rattle.std.specs.Prelude.{◌≡◌, Ok};
    ghost use Rattle.labels.specs.Guards.{meet};
    ghost use Rattle.stores.specs.Pruned.{prunable, met_with};
    ghost use Rattle.stores.specs.Prunings.{pruning_table};
    ghost use Rattle.stores.specs.Tables.{empty_table, facet};

    // Tells before a store is pruned whether it may be: it may not have a row.
    pub fn check(below: &S) -> Result<(), Fault>
        ensures { result ≡ prunable (S.table below.now) }
    {
        refuse_unless(below.count() == 0, Refusal::StoreNotEmpty, 0)
    }

    // Prunes a store that has no row.
    pub fn new(below: S, guard: G) -> Pruned<S, G>
        requires { prunable (S.table below) ≡ Ok tt }
        ensures { pruning_table S.Store G.Guard result ≡ empty_table (meet (S.table below).keeps (G.admitted guard)) (S.table below).capacity }
    {
        Pruned { below, guard }
    }

    // The row, met with the guard.
    fn narrowed(&self, row: &Row<G>) -> Row<G>
        ensures { facet G.admitted result ≡ met_with (G.admitted self.now.guard) (facet G.admitted row.now) }
    {
        Row {
            guard: row.guard.meet(self.guard),
            cells: row.cells,
        }
    }
}

impl<G: Guard, S: Store<G>> Store<G> for Pruned<S, G> {
    ghost use Rattle.stores.specs.Prunings.{pruning_table};

    ghost table = { pruning_table S.Store G.Guard };

    ghost touching = { λ p. p.touching };

    fn count(&self) -> u32 {
        self.below.count()
    }

    fn capacity(&self) -> u32 {
        self.below.capacity()
    }

    fn keeps(&self, choice: Choice) -> bool {
        self.below.keeps(choice) && self.guard.admits(choice)
    }

    fn touches(&self, guard: G) -> bool {
        self.below.touches(guard.meet(self.guard))
    }

    fn row(&self, place: u32) -> Row<G> {
        self.below.row(place)
    }

    fn next(&self, from: u32, column: u32, number: i32) -> Option<u32> {
        self.below.next(from, column, number)
    }

    fn add(&mut self, row: &Row<G>) -> Result<(), Fault> {
        let row = self.narrowed(row);
        self.below.add(&row)
    }

    fn put(&mut self, place: u32, row: &Row<G>) -> Result<(), Fault> {
        let row = self.narrowed(row);
        self.below.put(place, &row)
    }

    fn remove(&mut self, place: u32) -> Result<(), Fault> {
        self.below.remove(place)
    }
}
