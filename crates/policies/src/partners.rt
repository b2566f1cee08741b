// The partner policy: pairs of a viewer and a label that is open to that viewer on every day.
ghost use Rattle.std.specs.Prelude.{◌≡◌, ◌≤◌, [], length, IfOk};
ghost use Rattle.policies.specs.Ranges.{Becomes};
ghost use Rattle.policies.specs.Partners.{pair, listed, with_pair};

use crate::questions::Policy;
use crate::ranges::{Day, Viewer, policy_label};
use faults::{Fault, Refusal};
use std::alloc::{AllocError, Global};
use std::marker::Model;

// How many pairs the list takes.
pub const MOST_PAIRS: usize = 256;

#[derive(Clone, Copy, PartialEq, Eq)]
pub struct Pair {
    pub viewer: u32,
    pub label: u32,
}

// The listed pairs, in memory that was got at the making.
#[derive(Drop)]
pub struct Partners {
    pairs: Vec<Pair>,
}

// A partner policy means its list of pairs.
impl Model for Partners {
    ghost use Rattle.std.specs.Prelude.{◌≤◌, List, vec_len, vec_capacity};
    ghost use Rattle.policies.specs.declared.partners.Pair.{Pair};

    ghost Value = { List Pair };

    ghost view = { λ p. p.pairs.items };

    ghost invariant = { λ p. (vec_len p.pairs ≤ 256) × (256 ≤ vec_capacity p.pairs) };
}

impl Partners {
    // No pair is listed.
    pub fn new(heap: Global) -> Result<Partners, AllocError>
        ensures { IfOk result (λ p. p ≡ []) }
    {
        Ok(Partners {
            pairs: Vec::with_capacity(heap, MOST_PAIRS)?,
        })
    }

    // Whether the pair is listed.
    fn lists(&self, pair: Pair) -> bool
        ensures value { result ≡ listed self.now pair }
        ensures few { length self.now ≤ 256 }
    {
        // Not by `contains`: over it a pass took a quarter longer to resolve, and more.
        self.pairs.iter().any(|listed| *listed == pair)
    }

    // Lists the pair. One that is listed already is accepted, in a full list too.
    pub fn list(&mut self, viewer: i32, label: i32) -> Result<(), Fault>
        ensures after { Becomes (with_pair self.old viewer label) self.old self.new result }
        ensures few { length self.new ≤ 256 }
    {
        // Only a read shows the check that the list is short, on the ways out before the next one too.
        let _ = &self.pairs;
        let pair = Pair {
            viewer: Viewer::try_from(viewer)?.number,
            label: policy_label(label)?,
        };
        if self.lists(pair) {
            return Ok(());
        }
        if self.pairs.len() >= MOST_PAIRS {
            return Err(Fault::new(Refusal::PartnersFull, MOST_PAIRS as u32));
        }
        self.pairs.push_reserved(pair);
        Ok(())
    }
}

impl Policy for Partners {
    ghost says = { λ p viewer label day. listed p (pair viewer label) };

    // At most 256 pairs are listed, however the list came to be.
    fn allows(&self, viewer: Viewer, label: u32, _day: Day) -> bool
        ensures value { result ≡ listed self.now (pair viewer.number label) }
        ensures few { length self.now ≤ 256 }
    {
        self.lists(Pair {
            viewer: viewer.number,
            label,
        })
    }
}
