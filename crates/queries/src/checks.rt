// What the checks of the arms of a query share.
ghost use Rattle.std.specs.Prelude.{◌≡◌, ◌^◌, ◌<◌, Bool, length};
ghost use Rattle.faults.specs.Faults.{first_not, answered};
ghost use Rattle.std.specs.Fn.{FnReturnsAt};

use faults::{Fault, Refusal};

// Tells the refusal at the place of the first item that does not pass.
pub(crate) fn refuse_first<T, F: Fn(&T) -> bool>(
    items: &[T],
    refusal: Refusal,
    passes: F,
) -> Result<(), Fault>
    requires few { length items.now < 2 ^ 32 }
    requires callable { F.IsAlwaysCallable passes }
    ensures { (ok : T → Bool) → ((item : T) (told : Bool) → FnReturnsAt F.Fn passes item told → told ≡ ok item) → result ≡ answered (first_not ok refusal items.now) }
{
    // A loop, since `position` takes a closure around `passes`, and what that answers was not proved.
    for (place, item) in items.iter().enumerate() {
        if !passes(item) {
            return Err(Fault::new(refusal, place as u32));
        }
    }
    Ok(())
}
