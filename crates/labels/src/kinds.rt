// What every kind of guard offers.
ghost use Rattle.std.specs.Prelude.{◌≡◌, ℕ, ◌≤◌, Bool};
ghost use Rattle.labels.specs.Guards.{everything, nothing, literal_guard, meet, empty, IgnoresFrom};

use crate::choices::Choice;
use crate::literals::{Literal, Sign};

// A guard stands for the choices that it admits. A kind of guard knows the labels from 0 up to some
// number of them, and does not look at the others.
pub trait Guard: Copy {
    // How many labels the kind knows.
    ghost known: { ℕ };

    // The choices that a guard admits.
    ghost admitted: { Self → ℕ → Bool };

    fn label_count() -> u32
        ensures { result ≡ known };

    // The guard that admits every choice.
    fn everything() -> Self
        ensures { admitted result ≡ everything };

    // The guard that admits no choice: that of a literal whose label is not known.
    fn nothing() -> Self
        ensures { admitted result ≡ nothing }
    {
        Self::of_literal(Literal {
            sign: Sign::Plus,
            label: Self::label_count(),
        })
    }

    // The guard that admits the choices where the literal holds, and none if its label is not known.
    fn of_literal(literal: Literal) -> Self
        ensures { admitted result ≡ literal_guard known literal };

    // The guard that admits what both admit.
    fn meet(self, other: Self) -> Self
        ensures { admitted result ≡ meet (admitted self) (admitted other) };

    // The guard, for the choices at which the literal holds too.
    fn narrowed(self, literal: Literal) -> Self
        ensures { admitted result ≡ meet (admitted self) (literal_guard known literal) }
    {
        self.meet(Self::of_literal(literal))
    }

    fn admits(self, choice: Choice) -> bool
        ensures { result ≡ admitted self choice.bits };

    // Whether no choice is admitted.
    fn is_empty(self) -> bool
        ensures { result ≡ empty (admitted self) };

    // A choice has no more.
    ghost few: { known ≤ 64 };

    // Choices that differ only in labels that the kind does not know are admitted alike.
    ghost ignores: { (g : Self) → IgnoresFrom known (admitted g) };
}
