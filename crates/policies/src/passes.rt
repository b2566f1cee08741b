// Passes: what one viewer may see on one day, for one asking.
ghost use Rattle.std.specs.Prelude.{◌≡◌, ℕ, IfOk, Ok};
ghost use Rattle.policies.specs.Passes.{choice_for, resolved, HoldsWhatIsAllowed};
ghost use Rattle.policies.specs.Ranges.{Gives, viewer_number, day_number};

use crate::questions::Policy;
use crate::ranges::{Day, Viewer};
use faults::Fault;
use labels::{Choice, Guard};
use std::marker::{Model, PhantomData};

// The choice that a policy gave, for guards of the kind G. It cannot be copied: one asking uses it
// up.
#[derive(Drop)]
pub struct Pass<G> {
    choice: Choice,
    kind: PhantomData<G>,
}

// A pass means the choice that it holds.
impl<G> Model for Pass<G> {
    ghost use Rattle.labels.specs.declared.choices.Choice.{Choice};

    ghost Value = { Choice };

    ghost view = { λ p. p.choice };
}

// The labels of the kind for which the policy says yes.
fn choice_for<G: Guard, P: Policy>(policy: &P, viewer: Viewer, day: Day) -> Choice
    ensures value { result.bits ≡ choice_for G.known (P.says policy.now) viewer.number day.number }
    ensures labels { HoldsWhatIsAllowed G.known (P.says policy.now) viewer.number day.number result.bits }
{
    (0..G::label_count())
        .filter(|label| policy.allows(viewer, *label, day))
        .fold(Choice { bits: 0 }, |choice, label| choice.with(label))
}

impl<G: Guard> Pass<G> {
    // Asks the policy about each label that the guard kind knows. Viewer and day come as two numbers, as they
    // stand in a script; each is checked here.
    pub fn resolve<P: Policy>(policy: &P, viewer: i32, day: i32) -> Result<Pass<G>, Fault>
        ensures value { Gives (resolved G.known (P.says policy.now) viewer day) (λ p. p.bits) result }
        ensures labels { IfOk result (λ p. (v d : ℕ) → viewer_number viewer ≡ Ok v → day_number day ≡ Ok d → HoldsWhatIsAllowed G.known (P.says policy.now) v d p.bits) }
    {
        let viewer = Viewer::try_from(viewer)?;
        let day = Day::try_from(day)?;
        Ok(Pass {
            choice: choice_for::<G, P>(policy, viewer, day),
            kind: PhantomData,
        })
    }

    // Uses the pass up for its choice.
    pub fn spend(self) -> Choice
        ensures { result ≡ self }
    {
        self.choice
    }
}
