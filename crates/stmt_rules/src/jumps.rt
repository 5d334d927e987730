// `continue` and `break` (ISO C11 6.8.6.2, 6.8.6.3).
ghost use Rattle.std.specs.Prelude.{◌≡◌};
ghost use Rattle.stmt_rules.specs.Jumps as spec;

use crate::faults::fault;
use std::alloc::Global;
use type_data::Fault;

/// What a statement is within, in its function.
#[derive(Clone, Copy, Debug, PartialEq, Eq, Drop)]
pub struct Within {
    pub looping: bool,
    pub switching: bool,
}

impl Within {
    /// Within neither a loop nor a `switch`, as the body of a function is.
    pub fn nowhere() -> Within
        ensures { result ≡ spec.nowhere }
    {
        Within {
            looping: false,
            switching: false,
        }
    }

    /// What the body of a loop is within.
    pub fn looped(self) -> Within
        ensures { result ≡ spec.looped self }
    {
        Within {
            looping: true,
            switching: self.switching,
        }
    }

    /// What the statement of a `switch` is within.
    pub fn switched(self) -> Within
        ensures { result ≡ spec.switched self }
    {
        Within {
            looping: self.looping,
            switching: true,
        }
    }
}

/// What a `continue`, which is `at`, breaks (ISO C11 6.8.6.2p1): 611 outside a loop. It takes no memory.
pub fn check_continue(alloc: Global, at: u32, within: Within) -> Option<Fault>
    ensures { result ≡ spec.continue_fault at within }
{
    if within.looping {
        return None;
    }
    Some(fault(alloc, 611, at))
}

/// What a `break`, which is `at`, breaks (ISO C11 6.8.6.3p1): 612 outside a loop and outside a `switch`. It takes no memory.
pub fn check_break(alloc: Global, at: u32, within: Within) -> Option<Fault>
    ensures { result ≡ spec.break_fault at within }
{
    if within.looping || within.switching {
        return None;
    }
    Some(fault(alloc, 612, at))
}
