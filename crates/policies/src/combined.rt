// The either policy: yes when one of two policies says yes.
ghost use Rattle.policies.specs.Combined.{either};

use crate::questions::Policy;
use crate::ranges::{Day, Viewer};

#[derive(Drop)]
pub struct Either<A, B> {
    pub first: A,
    pub second: B,
}

impl<A: Policy, B: Policy> Policy for Either<A, B> {
    ghost says = { λ p. either (A.says p.first) (B.says p.second) };

    fn allows(&self, viewer: Viewer, label: u32, day: Day) -> bool {
        self.first.allows(viewer, label, day) || self.second.allows(viewer, label, day)
    }
}
