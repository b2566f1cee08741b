// Examples of each layer, at the ends of its ranges.
use faults::{Fault, Refusal};
use guards::{Conjunction, TruthTable};
use labels::{Choice, Guard, Literal, Path, Sign};
use policies::{Either, Partners, Pass, Policy, Release};
use std::test::Fail;

fn plus(label: u32) -> Literal {
    Literal {
        sign: Sign::Plus,
        label,
    }
}

// A guard of +0 met with -5 admits the choices with label 0 and without label 5, whatever else they
// have; a literal of the first unknown label admits none.
fn answers_right<G: Guard>() -> bool {
    let guard = G::of_literal(plus(0)).meet(G::of_literal(plus(5).opposite()));
    G::of_literal(plus(G::label_count())).is_empty()
        && [
            (0b00_0001, true),
            (0b01_1111, true),
            (0b00_0000, false),
            (0b10_0001, false),
        ]
        .iter()
        .all(|&(bits, expected)| guard.admits(Choice { bits }) == expected)
}

#[test]
fn both_kinds_of_guard(rt: HostRuntime) {
    assert!(rt; answers_right::<Conjunction>() && answers_right::<TruthTable>());
    assert!(rt; Conjunction::of_words(1, 1) == Conjunction::of_words(6, 2));
}

#[test]
fn a_path_takes_eight_literals(rt: HostRuntime) -> Result<(), Fail> {
    let mut path = Path::new();
    for label in 0..8 {
        path.push(plus(label))?;
    }
    assert_eq!(rt;
        path.push(plus(8)),
        Err(Fault::new(Refusal::CountOutOfLimits, 0))
    );
    let guard: Conjunction = path.guard();
    assert!(rt; guard.admits(Choice { bits: 0xFF }) && !guard.admits(Choice { bits: 0xFE }));
    Ok(())
}

#[test]
fn a_full_list_takes_a_pair_again(rt: HostRuntime) -> Result<(), Fail> {
    let mut partners = Partners::new(rt.alloc())?;
    for viewer in 1..257 {
        partners.list(viewer, 3)?;
    }
    let refused = [
        (257, 3, Refusal::PartnersFull, 256),
        (0, 64, Refusal::ViewerOutOfRange, 0),
        (10_000, 3, Refusal::ViewerOutOfRange, 0),
        (1, 64, Refusal::UnknownLabel, 0),
    ];
    for (viewer, label, refusal, place) in refused {
        assert_eq!(rt;
            partners.list(viewer, label),
            Err(Fault::new(refusal, place))
        );
    }
    assert_eq!(rt; partners.list(256, 3), Ok(()));
    Ok(())
}

// The choice that a viewer gets on a day, as a word.
fn choice<P: Policy>(policy: &P, viewer: i32, day: i32) -> Result<u64, Fault> {
    let pass = Pass::<TruthTable>::resolve(policy, viewer, day)?;
    Ok(pass.spend().bits)
}

#[test]
fn passes_by_release_or_partner(rt: HostRuntime) -> Result<(), Fail> {
    let mut policy = Either {
        first: Release::new(),
        second: Partners::new(rt.alloc())?,
    };
    policy.first.set_day(0, 9_500)?;
    policy.second.list(12, 5)?;
    for (label, day, refusal) in [
        (0, 100_001, Refusal::DayOutOfRange),
        (-1, -1, Refusal::DayOutOfRange),
        (64, 100_000, Refusal::UnknownLabel),
    ] {
        assert_eq!(rt;
            policy.first.set_day(label, day),
            Err(Fault::new(refusal, 0))
        );
    }
    let asked = [
        (12, 9_499, Ok(1 << 5)),
        (12, 9_500, Ok(1 | 1 << 5)),
        (9_999, 99_999, Ok(1)),
        (0, 100_000, Err(Fault::new(Refusal::ViewerOutOfRange, 0))),
        (9_999, 100_000, Err(Fault::new(Refusal::DayOutOfRange, 0))),
    ];
    for (viewer, day, expected) in asked {
        assert_eq!(rt; choice(&policy, viewer, day), expected);
    }
    Ok(())
}
