// The release policy: each label is open to everyone from its release day on.
ghost use Rattle.std.specs.Prelude.{◌≡◌, replicate, length};
ghost use Rattle.policies.specs.Ranges.{Becomes};
ghost use Rattle.policies.specs.Releases.{unset, release_day, released, with_day};

use crate::questions::Policy;
use crate::ranges::{Day, Viewer, checked, policy_label};
use faults::{Fault, Refusal};
use std::marker::Model;

// The day on which a label that was never set is released: after every day.
pub const NEVER: u32 = 100_000;

// A label's release day, if it was set.
#[derive(Clone, Copy)]
pub struct LabelRecord {
    pub day: Option<u32>,
}

// A record for each label below 64.
#[derive(Clone, Copy)]
pub struct Release {
    records: [LabelRecord; 64],
}

// A release policy means its list of records.
impl Model for Release {
    ghost use Rattle.std.specs.Prelude.{List};
    ghost use Rattle.policies.specs.declared.releases.LabelRecord.{LabelRecord};

    ghost Value = { List LabelRecord };

    ghost view = { λ r. r.records };

    ghost inverse = { λ records. record { records = records } };
}

impl Release {
    // No label's day is set.
    pub fn new() -> Release
        ensures { result ≡ replicate 64 unset }
    {
        Release {
            records: [LabelRecord { day: None }; 64],
        }
    }

    // Sets the label's release day; a later day for the same label takes its place.
    pub fn set_day(&mut self, label: i32, day: i32) -> Result<(), Fault>
        ensures { Becomes (with_day self.old label day) self.old self.new result }
    {
        let day = checked(day, 0, NEVER, Refusal::DayOutOfRange)?;
        let label = policy_label(label)?;
        self.records[label as usize] = LabelRecord { day: Some(day) };
        Ok(())
    }

    // The label's release day; there is none for a label from 64 up.
    pub fn release_day(&self, label: u32) -> u32
        ensures value { result ≡ release_day self.now label }
        ensures labels { length self.now ≡ 64 }
    {
        self.records
            .get(label as usize)
            .and_then(|record| record.day)
            .unwrap_or(NEVER)
    }
}

impl Policy for Release {
    ghost says = { λ p viewer label day. released p label day };

    fn allows(&self, _viewer: Viewer, label: u32, day: Day) -> bool {
        self.release_day(label) <= day.number
    }
}
