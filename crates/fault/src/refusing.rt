// Faults with no place of their own, and the check that gives one.
ghost use Rattle.std.specs.Prelude.{◌≡◌, true, false, MatchResult};
ghost use Rattle.fault.specs.Checks.{fault};

use crate::cause::{Cause, Fault};

impl Fault {
    // A fault of the function or table at the index, with no place in it.
    pub fn new(cause: Cause, index: usize) -> Fault
        ensures { result ≡ fault cause index }
    {
        Fault {
            cause,
            index,
            place: 0,
        }
    }
}

// Refuses by the fault where the test fails.
pub fn demand(holds: bool, otherwise: Fault) -> Result<(), Fault>
    ensures { MatchResult result (λ _. holds ≡ true) (λ e. (holds ≡ false) × (e ≡ otherwise)) }
{
    if holds { Ok(()) } else { Err(otherwise) }
}
