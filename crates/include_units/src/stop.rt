// Why reading stops.
use crate::types::Want;
use std::alloc::AllocError;

#[derive(Debug, Drop)]
pub(crate) enum Stop {
    // This isn't told.
    Need(Want),
    NoMemory,
}

impl From<AllocError> for Stop {
    ghost use Rattle.std.specs.Prelude.{◌≡◌};
    ghost use Rattle.include_units.specs.declared.stop.Stop.TheVariants.{NoMemory};

    ghost from_gives = { λ _ e. e ≡ NoMemory };

    fn from(_error: AllocError) -> Stop {
        Stop::NoMemory
    }
}
