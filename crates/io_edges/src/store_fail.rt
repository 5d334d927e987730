// Want of memory as a store's failure.
use crate::ends::StoreFail;
use std::alloc::AllocError;

impl From<AllocError> for StoreFail {
    ghost use Rattle.std.specs.Prelude.{◌≡◌};
    ghost use Rattle.io_edges.specs.declared.ends.StoreFail.TheVariants.{NoMemory};

    ghost from_gives = { λ _ e. e ≡ NoMemory };

    fn from(_: AllocError) -> StoreFail {
        StoreFail::NoMemory
    }
}
