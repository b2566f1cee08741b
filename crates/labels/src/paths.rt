// Paths: literals that hold together.
ghost use Rattle.std.specs.Prelude.{◌≤◌};

use crate::literals::Literal;

mod methods;

// How many literals a path has at most.
pub const MOST_LITERALS: usize = 8;

// The first `len` literals, at most eight, are the path.
// An array with its length beside it, and not a `Vec`: a path is copied, and takes no memory but its own.
// No model stands for it either: one that shows the literals alone forgets the slots behind them, and such
// a type cannot be copied, unless those slots were all held to one value, which is no plainer.
#[derive(Clone, Copy)]
pub struct Path {
    literals: [Literal; MOST_LITERALS],
    len: usize,
    ghost short: { len ≤ 8 },
}
