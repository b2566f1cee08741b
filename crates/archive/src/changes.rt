// What a statement names: a table, and what becomes of a row that it changes.
ghost use Rattle.std.specs.Prelude.{◌≡◌};
ghost use Rattle.archive.specs.Rules.{change_within};
ghost use Rattle.archive.specs.Runs.{place_of};

use rows::WIDTH;

// One of the two tables. The discriminants are the places by which faults tell them.
#[derive(Clone, Copy)]
pub enum TableName {
    Files = 0,
    Readings = 1,
}

impl TableName {
    // The place by which a fault tells the table.
    pub(crate) fn place(self) -> u32
        ensures { result ≡ place_of self }
    {
        self as u32
    }
}

// What becomes of a row inside the path: a column is set to a number, or the row is cut.
#[derive(Clone, Copy)]
pub enum Change {
    Set(u32, i32),
    Cut,
}

impl Change {
    // Whether the column that is set exists.
    pub(crate) fn is_within(self) -> bool
        ensures { result ≡ change_within self }
    {
        match self {
            Change::Set(column, _) => column < WIDTH as u32,
            Change::Cut => true,
        }
    }
}
