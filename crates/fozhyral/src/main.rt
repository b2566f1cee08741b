// Fozhyral: a faceted archive of wireline log rows. So far it shows on one reading what labels,
// guards, policies and passes decide: a well is confidential until its release day, and each viewer is shown
// either the tool's value or the null that stands in for it.
#![tactic(auto)]

use cases::worked_cases;
use guards::{Conjunction, TruthTable};
use labels::Guard;
use policies::{Either, Partners, Policy, Release};
use readings::{NULL, show_confidential};

// The label of the well.
const LABEL: u32 = 0;

// The value that the tool read.
const VALUE: i32 = 2_350;

// A viewer who asks on a day.
#[derive(Clone, Copy)]
struct Visit {
    viewer: i32,
    day: i32,
}

// An outsider (17) and a partner (12) around the release on day 9500, and two that are turned back.
const VISITS: [Visit; 7] = [
    Visit {
        viewer: 17,
        day: 9_499,
    },
    Visit {
        viewer: 17,
        day: 9_500,
    },
    Visit {
        viewer: 17,
        day: 9_501,
    },
    Visit { viewer: 12, day: 0 },
    Visit {
        viewer: 12,
        day: 9_499,
    },
    Visit {
        viewer: 0,
        day: 9_500,
    },
    Visit {
        viewer: 17,
        day: 100_000,
    },
];

// Decides the reading for each visit, with guards of one kind.
fn decide_all<G: Guard, P: Policy>(rt: &HostRuntime, policy: &P, kind: &str) -> anyhow::Result<()> {
    let labels = G::label_count();
    println!(rt; "guards of the {kind} kind, which knows {labels} labels:")?;
    for Visit { viewer, day } in VISITS {
        match show_confidential::<G, P>(policy, LABEL, VALUE, viewer, day) {
            Ok(shown) => println!(rt; "  viewer {viewer} on day {day} is shown {shown}")?,
            Err(fault) => println!(rt; "  viewer {viewer} on day {day} is turned back: {fault}")?,
        }
    }
    Ok(())
}

// A confidential well: released on a day, with one partner before it.
fn tour(rt: &HostRuntime) -> anyhow::Result<()> {
    let mut policy = Either {
        first: Release::new(),
        second: Partners::new(rt.alloc())?,
    };
    policy.first.set_day(0, 9_500)?;
    println!(rt; "label 0 is released on day 9500")?;
    policy.second.list(12, 0)?;
    println!(rt; "viewer 12 is a partner for label 0")?;
    println!(rt; "a reading has two facets: {VALUE} with label {LABEL}, {NULL} without")?;
    decide_all::<Conjunction, _>(rt, &policy, "conjunction")?;
    decide_all::<TruthTable, _>(rt, &policy, "table")?;
    Ok(())
}

// Two facts that are proved of the definitions, as the code answers them.
fn show_cases(rt: &HostRuntime) -> anyhow::Result<()> {
    let cases = worked_cases();
    let empty = cases.contradiction_is_empty;
    let word = cases.fifth_label;
    println!(rt; "in the conjunction kind, +3 met with -3 is empty: {empty}")?;
    println!(rt; "in the table kind, +5 is the word {word:016X}")?;
    Ok(())
}

fn main(rt: HostRuntime) -> anyhow::Result<()> {
    tour(&rt)?;
    show_cases(&rt)
}
