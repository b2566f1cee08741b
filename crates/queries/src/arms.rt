// Queries: arms, each with a source of rows, a test and the columns to show.
ghost use Rattle.std.specs.Prelude.{◌≡◌, ◌&&◌, map, length, pos, nat_le, nat_lt, slice_index_or};
ghost use Rattle.std.specs.List.{list_all};
ghost use Rattle.queries.specs.Arms.{source_width, joins_within, arm_of, arm_counted, arm_in_form, arm_within, shown_cells, query_of, query_fault};
ghost use Rattle.faults.specs.Faults.{answered};
ghost use Rattle.queries.specs.Tests.{number_in};

use crate::checks::refuse_first;
use crate::nodes::{Test, item_or};
use faults::{Fault, Refusal, refuse_unless};
use rows::{Cells, WIDTH};
use std::array;

// How many columns a row has.
const COLUMNS: u32 = WIDTH as u32;

// How many arms a query has at most.
pub const MOST_ARMS: usize = 4;

// Where the rows of an arm come from: the files, the readings, or each file row with each reading row
// where a column of the file equals a column of the reading.
#[derive(Clone, Copy)]
pub enum Source {
    Files,
    Readings,
    Joined(u32, u32),
}

impl Source {
    // How many columns the rows have. In joined rows those of the file come first.
    pub fn width(self) -> u32
        ensures { result ≡ source_width self }
    {
        match self {
            Source::Files | Source::Readings => COLUMNS,
            Source::Joined(_, _) => 2 * COLUMNS,
        }
    }

    // Whether the columns that are joined exist, each in its table.
    pub fn joins_within(self) -> bool
        ensures { result ≡ joins_within self }
    {
        match self {
            Source::Files | Source::Readings => true,
            Source::Joined(file, reading) => file < COLUMNS && reading < COLUMNS,
        }
    }
}

// Whether each column is below the width.
fn all_below(columns: &[u32], width: u32) -> bool
    ensures { result ≡ list_all (λ column. nat_lt column width) columns.now }
{
    columns.iter().all(|&column| column < width)
}

// One arm of a query. A `Copy` struct with a lifetime can have no model, so the clauses say what it
// asks by `arm_of`.
#[derive(Clone, Copy)]
pub struct Arm<'a> {
    pub source: Source,
    pub test: Test<'a>,
    pub shown: &'a [u32],
}

impl Arm<'_> {
    // Whether the arm has 1 to 15 nodes and shows 1 to 6 columns.
    pub fn is_counted(&self) -> bool
        ensures { result ≡ arm_counted (arm_of self.now) }
    {
        self.test.is_counted() && (1..=WIDTH).contains(&self.shown.len())
    }

    // Whether the test is in form.
    pub fn is_in_form(&self) -> bool
        ensures { result ≡ arm_in_form (arm_of self.now) }
    {
        self.test.is_in_form()
    }

    // Whether the arm names no column that its source does not have.
    pub fn is_within(&self) -> bool
        ensures { result ≡ arm_within (arm_of self.now) }
    {
        let width = self.source.width();
        self.source.joins_within()
            && self.test.columns_within(width)
            && all_below(self.shown, width)
    }

    // The cell that is shown at a place: the number in the column that is named there, and 0 where
    // none is.
    fn shown_cell(&self, cells: &[i32], place: usize) -> i32
        ensures { result ≡ slice_index_or (map (number_in cells.now) self.now.shown.now) place (pos 0) }
    {
        self.shown
            .get(place)
            .map_or(0, |&column| item_or(cells, column, 0))
    }

    // The cells of the shown columns in order, and zeros behind them. Only the first six columns
    // count.
    pub fn shown_cells(&self, cells: &[i32]) -> Cells
        ensures { result ≡ shown_cells self.now.shown.now cells.now }
    {
        let values = array::from_fn(|place| self.shown_cell(cells, place));
        Cells { values }
    }
}

// A query answers with the rows of all of its arms. The clauses say what it asks by `query_of`, for
// the same reason as at `Arm`.
#[derive(Clone, Copy)]
pub struct Query<'a> {
    pub arms: &'a [Arm<'a>],
}

impl Query<'_> {
    // Tells first whether the arms are too few or too many, then the first arm that has a count out of
    // its limits, then the first whose test is out of form, then the first that names a column that
    // its source does not have.
    pub fn check(&self) -> Result<(), Fault>
        ensures { result ≡ answered (query_fault (query_of self.now)) }
    {
        refuse_unless(self.is_counted(), Refusal::CountOutOfLimits, 0)?;
        refuse_first(self.arms, Refusal::CountOutOfLimits, |arm| arm.is_counted())?;
        refuse_first(self.arms, Refusal::TestOutOfForm, |arm| arm.is_in_form())?;
        refuse_first(self.arms, Refusal::UnknownColumn, |arm| arm.is_within())
    }

    // Whether the query has 1 to 4 arms.
    fn is_counted(&self) -> bool
        ensures { result ≡ (nat_le 1 (length (query_of self.now)) && nat_le (length (query_of self.now)) 4) }
    {
        (1..=MOST_ARMS).contains(&self.arms.len())
    }
}
