// What every policy offers: one question.
ghost use Rattle.std.specs.Prelude.{◌≡◌, ℕ, Bool};

use crate::ranges::{Day, Viewer};

// A policy says yes or no for each viewer, label and day. It speaks of the labels below 64. The three stay
// apart, since a policy may look at a day alone, or at a viewer and a label alone.
pub trait Policy {
    // Whether the viewer holds the label on the day, in this order.
    ghost says: { Self → ℕ → ℕ → ℕ → Bool };

    fn allows(&self, viewer: Viewer, label: u32, day: Day) -> bool
        ensures { result ≡ says self.now viewer.number label day.number };
}
