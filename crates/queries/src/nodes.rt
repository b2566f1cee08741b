// Tests of rows: nodes that rest on earlier ones. The last node decides.
ghost use Rattle.std.specs.Prelude.{◌≡◌, ◌-◌, ◌≤◌, length, nat_lt, slice_index_or};
ghost use Rattle.faults.specs.Faults.{answered};
ghost use Rattle.queries.specs.Tests.{compares, node_truth, passes, rests_below, WorkedOut, is_counted, in_form, column_within, columns_within, test_fault};

use faults::{Fault, Refusal, refuse_unless};
use std::cmp::Ordering;

// How many nodes a test has at most.
pub const MOST_NODES: usize = 15;

// Whether the two numbers compare in this way.
fn compares(ordering: Ordering, a: i32, b: i32) -> bool
    ensures { result ≡ compares ordering a b }
{
    a.cmp(&b) == ordering
}

// The item at the place, or what stands for one where there is none.
pub(crate) fn item_or<T: Copy>(items: &[T], place: u32, absent: T) -> T
    ensures { result ≡ slice_index_or items.now place absent }
{
    items.get(place as usize).copied().unwrap_or(absent)
}

// Whether the number comes before the place.
fn is_before(number: u32, place: usize) -> bool
    ensures { result ≡ nat_lt number place }
{
    (number as usize) < place
}

// One node of a test: always true, true where the cell of a column is less than, equal to or greater
// than a number, or a word on the nodes of the given numbers.
#[derive(Clone, Copy)]
pub enum Node {
    Always,
    Compare(u32, Ordering, i32),
    Not(u32),
    And(u32, u32),
    Or(u32, u32),
}

impl Node {
    // Whether the node is true of the cells, given the truth of the nodes before it. A cell that is not
    // there is 0, and a node that has no truth yet is not true.
    pub fn truth(self, earlier: &[bool], cells: &[i32]) -> bool
        ensures { result ≡ node_truth self earlier.now cells.now }
    {
        match self {
            Node::Always => true,
            Node::Compare(column, ordering, number) => {
                compares(ordering, item_or(cells, column, 0), number)
            }
            Node::Not(a) => !item_or(earlier, a, false),
            Node::And(a, b) => item_or(earlier, a, false) && item_or(earlier, b, false),
            Node::Or(a, b) => item_or(earlier, a, false) || item_or(earlier, b, false),
        }
    }

    // Whether the node rests only on nodes with a lower number than its own.
    pub fn rests_below(self, number: usize) -> bool
        ensures { result ≡ rests_below number self }
    {
        match self {
            Node::Always | Node::Compare(_, _, _) => true,
            Node::Not(a) => is_before(a, number),
            Node::And(a, b) | Node::Or(a, b) => is_before(a, number) && is_before(b, number),
        }
    }

    // Whether the node looks at no column from `width` up.
    pub fn column_within(self, width: u32) -> bool
        ensures { result ≡ column_within width self }
    {
        match self {
            Node::Compare(column, _, _) => column < width,
            Node::Always | Node::Not(_) | Node::And(_, _) | Node::Or(_, _) => true,
        }
    }
}

// A test is its nodes, by number. A `Copy` struct with a lifetime can have no model, so the clauses
// name its field, as `self.now.nodes.now`.
#[derive(Clone, Copy)]
pub struct Test<'a> {
    pub nodes: &'a [Node],
}

impl Test<'_> {
    // Whether the test has 1 to 15 nodes.
    pub fn is_counted(&self) -> bool
        ensures { result ≡ is_counted self.now.nodes.now }
    {
        (1..=MOST_NODES).contains(&self.nodes.len())
    }

    // Whether each node rests only on nodes with a lower number.
    pub fn is_in_form(&self) -> bool
        ensures { result ≡ in_form self.now.nodes.now }
    {
        self.nodes
            .iter()
            .enumerate()
            .all(|(number, node)| node.rests_below(number))
    }

    // Whether the test looks at no column from `width` up.
    pub fn columns_within(&self, width: u32) -> bool
        ensures { result ≡ columns_within width self.now.nodes.now }
    {
        self.nodes.iter().all(|node| node.column_within(width))
    }

    // The number of the last node, which decides.
    fn root(&self) -> usize
        requires { 1 ≤ length self.now.nodes.now }
        ensures { result ≡ length self.now.nodes.now - 1 }
    {
        self.nodes.len() - 1
    }

    // Whether the row passes: the last node is true of its cells. The truths are worked out in number
    // order. A test with no node or with too many passes no row.
    pub fn passes(&self, cells: &[i32]) -> bool
        ensures value { result ≡ passes self.now.nodes.now cells.now }
        ensures rests { WorkedOut self.now.nodes.now cells.now }
    {
        if !self.is_counted() {
            return false;
        }
        // An array, since a row is tested with no heap; and a loop, since each turn reads the truths before it.
        let mut truths = [false; MOST_NODES];
        for (number, node) in self.nodes.iter().enumerate() {
            truths[number] = node.truth(&truths[..number], cells);
        }
        truths[self.root()]
    }

    // Tells first whether the nodes are too few or too many, and then whether they are out of form.
    pub fn check(&self) -> Result<(), Fault>
        ensures { result ≡ answered (test_fault self.now.nodes.now) }
    {
        refuse_unless(self.is_counted(), Refusal::CountOutOfLimits, 0)?;
        refuse_unless(self.is_in_form(), Refusal::TestOutOfForm, 0)
    }
}
