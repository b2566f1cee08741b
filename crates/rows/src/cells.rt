// Rows: the cells of a log row, and such a row with its guard.
ghost use Rattle.std.specs.Prelude.{◌≡◌};
ghost use Rattle.rows.specs.Cells.{cell_is, with_cell, zeros};

// How many cells a row has, one for each column.
pub const WIDTH: usize = 6;

// The cells of a row, by column.
#[derive(Clone, Copy)]
pub struct Cells {
    pub values: [i32; WIDTH],
}

// Column and number are two values, and no struct of the two: callers have them apart, and would make one
// for the call alone.
impl Cells {
    // Every cell is 0.
    pub fn zeros() -> Cells
        ensures { result ≡ zeros }
    {
        Cells { values: [0; WIDTH] }
    }

    // Whether the cell in the column is this number. Past the last column there is no cell.
    pub fn has(&self, column: u32, number: i32) -> bool
        ensures { result ≡ cell_is column number self.now }
    {
        self.values.get(column as usize) == Some(&number)
    }

    // The cells with another number in one column. Past the last column there is nothing to change.
    pub fn with(mut self, column: u32, number: i32) -> Cells
        ensures { result ≡ with_cell column number self }
    {
        let column = column as usize;
        if column < WIDTH {
            self.values[column] = number;
        }
        self
    }
}

// A faceted row: these cells, for the choices that the guard admits.
#[derive(Clone, Copy)]
pub struct Row<G> {
    pub guard: G,
    pub cells: Cells,
}
