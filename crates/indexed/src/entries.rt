// The entries of an index, and their order.

// A number that stands in the indexed column, with the place of its row. Entries come in the order of their
// numbers, and where the numbers are the same in that of their places.
#[derive(Clone, Copy, PartialEq, Eq, PartialOrd, Ord)]
pub struct Entry {
    pub number: i32,
    pub place: u32,
}
