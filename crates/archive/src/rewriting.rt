// Set and cut: a change of the rows that pass a test, inside a path.
ghost use Rattle.std.specs.Prelude.{◌≡◌, ◌≤◌, length};
ghost use Rattle.labels.specs.Guards.{literal_guard, meet};
ghost use Rattle.labels.specs.Literals.{opposite};
ghost use Rattle.rows.specs.declared.cells.Cells.{Cells};
ghost use Rattle.stores.specs.Tables.{facet};
ghost use Rattle.archive.specs.Rules.{changed, inside, outside, concerned, rewritten, rewritten_rows};
ghost use Rattle.archive.specs.Turns.{path_of, test_of, given, ruled};

use crate::changes::Change;
use labels::{Guard, Literal, Path};
use queries::Test;
use rows::Row;
use stores::Store;

// A set or a cut, by what it is given.
#[derive(Clone, Copy)]
pub struct Rewrite<'a> {
    pub path: &'a Path,
    pub test: Test<'a>,
    pub change: Change,
}

// The guard, for the choices at which the literal does not hold.
pub(crate) fn turned_away<G: Guard>(guard: G, literal: Literal) -> G
    ensures { G.admitted result ≡ meet (G.admitted guard) (literal_guard G.known (opposite literal)) }
{
    guard.narrowed(literal.opposite())
}

impl Rewrite<'_> {
    // The part of the row's guard that lies inside the path.
    pub(crate) fn guard_inside<G: Guard>(&self, row: &Row<G>) -> G
        ensures { G.admitted result ≡ (inside G.known (path_of self.now) (facet G.admitted row.now)).guard }
    {
        row.guard.meet(self.path.guard())
    }

    // Whether the row is changed.
    pub(crate) fn concerns<G: Guard, S: Store<G>>(&self, store: &S, row: &Row<G>) -> bool
        ensures { result ≡ concerned (S.table store.now) G.known (path_of self.now) (test_of self.now) (facet G.admitted row.now) }
    {
        self.test.passes(&row.cells.values) && store.touches(self.guard_inside(row))
    }

    // How many parts of a changed row there are inside the path.
    fn count_inside(&self) -> usize
        ensures value { (cells : Cells) → result ≡ length (changed self.now.change cells) }
        ensures few { result ≤ 1 }
    {
        match self.change {
            Change::Set(_, _) => 1,
            Change::Cut => 0,
        }
    }

    // How many parts of the row lie outside the path and touch the table.
    fn count_outside<G: Guard, S: Store<G>>(&self, store: &S, row: &Row<G>) -> usize
        ensures value { result ≡ length (outside (S.table store.now) G.known (path_of self.now) (facet G.admitted row.now)) }
        ensures few { result ≤ 8 }
    {
        // A loop: a chain by `scan` is proved where its items are told as values, and of a guard
        // only what it admits is told.
        let mut guard = row.guard;
        let mut count = 0;
        let literals = self.path.as_slice();
        for literal in literals {
            if store.touches(turned_away(guard, *literal)) {
                count += 1;
            }
            guard = guard.narrowed(*literal);
        }
        count
    }

    // How many rows become of the row.
    pub(crate) fn count_parts<G: Guard, S: Store<G>>(&self, store: &S, row: &Row<G>) -> usize
        ensures value { result ≡ length (ruled (rewritten (S.table store.now)) (given G.known self.now) (facet G.admitted row.now)) }
        ensures few { result ≤ 9 }
    {
        if !self.concerns(store, row) {
            return 1;
        }
        self.count_inside() + self.count_outside(store, row)
    }

    // How many rows the table has in the end.
    pub(crate) fn count_rows<G: Guard, S: Store<G>>(&self, store: &S) -> usize
        ensures { result ≡ length (ruled (rewritten_rows (S.table store.now)) (given G.known self.now)) }
    {
        (0..store.count())
            .map(|place| self.count_parts(store, &store.row(place)))
            .sum()
    }
}
