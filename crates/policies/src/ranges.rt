// Numbers that are checked once: viewers and days.
ghost use Rattle.std.specs.Prelude.{◌≡◌, ◌≤◌};
ghost use Rattle.policies.specs.Ranges.{Gives, in_range, viewer_number, day_number, policy_label};

use faults::{Fault, Refusal};

// The number, if it lies between the two bounds; else the refusal, at place 0. The bounds come as two
// numbers: a range that is handed over may have been used up, which callers would have to rule out.
pub(crate) fn checked(n: i32, low: u32, high: u32, refusal: Refusal) -> Result<u32, Fault>
    ensures { result ≡ in_range low high refusal n }
{
    match u32::try_from(n) {
        Ok(number) if (low..=high).contains(&number) => Ok(number),
        _ => Err(Fault::new(refusal, 0)),
    }
}

// A label that a policy speaks of: 0 to 63.
pub(crate) fn policy_label(number: i32) -> Result<u32, Fault>
    ensures { result ≡ policy_label number }
{
    checked(number, 0, 63, Refusal::UnknownLabel)
}

// Viewers and days are two types of one shape: bounds can be parameters of a type, but the refusal that
// goes with them can not, and a trait that gives it would take one more type for each.

// Someone who asks: a number from 1 to 9,999.
#[derive(Clone, Copy)]
pub struct Viewer {
    pub number: u32,
    ghost low: { 1 ≤ number },
    ghost high: { number ≤ 9999 },
}

impl TryFrom<i32> for Viewer {
    type Error = Fault;

    ghost try_from_gives = { λ n. Gives (viewer_number n) (λ v. v.number) };

    fn try_from(number: i32) -> Result<Viewer, Fault> {
        let number = checked(number, 1, 9_999, Refusal::ViewerOutOfRange)?;
        Ok(Viewer { number })
    }
}

// A day, counted from 1 January 1970: 0 to 99,999.
#[derive(Clone, Copy)]
pub struct Day {
    pub number: u32,
    ghost high: { number ≤ 99999 },
}

impl TryFrom<i32> for Day {
    type Error = Fault;

    ghost try_from_gives = { λ n. Gives (day_number n) (λ d. d.number) };

    fn try_from(number: i32) -> Result<Day, Fault> {
        let number = checked(number, 0, 99_999, Refusal::DayOutOfRange)?;
        Ok(Day { number })
    }
}
