// A reading with two facets, and which of them a pass is shown.
#![tactic(auto)]

ghost use Rattle.std.specs.Prelude.{◌≡◌, Some};
ghost use Rattle.labels.specs.Guards.{literal_guard};
ghost use Rattle.labels.specs.Literals.{plus, minus};
ghost use Rattle.readings.specs.Readings.{shown_text, null, shown_at, confidential_shown};

use faults::Fault;
use labels::{Guard, Literal, Sign};
use policies::{Pass, Policy};
use std::fmt;

// The value of a reading that was not taken.
pub const NULL: i32 = -999_250;

// A value, and the guard that says for which choices it is. Not a row: a reading holds one number, and knows no
// rows.
#[derive(Clone, Copy)]
pub struct Facet<G> {
    pub guard: G,
    pub value: i32,
}

// One depth sample: the tool's value, and what stands in for it.
#[derive(Clone, Copy)]
pub struct Reading<G> {
    pub measured: Facet<G>,
    pub stand_in: Facet<G>,
}

// The facet that was shown. That none was is a case here and no None, since what was shown is printed whole.
#[derive(Clone, Copy)]
pub enum Shown {
    Measured(i32),
    StandIn(i32),
    Nothing,
}

impl fmt::Display for Shown {
    ghost output = { λ s. Some (shown_text s) };

    fn fmt<W: fmt::Write>(&self, f: &mut fmt::Formatter<W>) -> fmt::Result {
        match *self {
            Shown::Measured(value) => write!(f, "the tool's value {value}"),
            Shown::StandIn(value) => write!(f, "the stand-in {value}"),
            Shown::Nothing => write!(f, "nothing"),
        }
    }
}

impl<G: Guard> Reading<G> {
    // The tool's value for those with the label, the null for the others.
    pub fn confidential(label: u32, value: i32) -> Reading<G>
        ensures measured_guard { G.admitted result.measured.guard ≡ literal_guard G.known (plus label) }
        ensures measured_value { result.measured.value ≡ value }
        ensures other_guard { G.admitted result.stand_in.guard ≡ literal_guard G.known (minus label) }
        ensures other_value { result.stand_in.value ≡ null }
    {
        let with_label = Literal {
            sign: Sign::Plus,
            label,
        };
        Reading {
            measured: Facet {
                guard: G::of_literal(with_label),
                value,
            },
            stand_in: Facet {
                guard: G::of_literal(with_label.opposite()),
                value: NULL,
            },
        }
    }

    // The facet that the pass is shown. The pass is used up.
    pub fn shown(&self, pass: Pass<G>) -> Shown
        ensures { result ≡ shown_at G.admitted self.now pass.bits }
    {
        let choice = pass.spend();
        if self.measured.guard.admits(choice) {
            Shown::Measured(self.measured.value)
        } else if self.stand_in.guard.admits(choice) {
            Shown::StandIn(self.stand_in.value)
        } else {
            Shown::Nothing
        }
    }
}

// What the viewer is shown of a confidential reading on the day: whoever the policy gives the label
// sees the tool's value, and everyone else the null. Nobody is shown anything under a label that the
// guard kind does not know.
pub fn show_confidential<G: Guard, P: Policy>(
    policy: &P,
    label: u32,
    value: i32,
    viewer: i32,
    day: i32,
) -> Result<Shown, Fault>
    ensures { result ≡ confidential_shown G.known (P.says policy.now) label value viewer day }
{
    let pass = Pass::<G>::resolve(policy, viewer, day)?;
    let reading = Reading::<G>::confidential(label, value);
    Ok(reading.shown(pass))
}
