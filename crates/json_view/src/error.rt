// Why a member isn't read.
use std::alloc::AllocError;
use thiserror::Error;

/// Why a member isn't read, each with the key of the member that shows it. Contracts compare keys by their bytes.
#[derive(Clone, Copy, Debug, PartialEq, Eq, Error)]
pub enum ViewError {
    /// The value has no such member, or is no object.
    #[error("`{0}` is missing")]
    Missing(&'static str),
    /// The member is of another kind. A number with a fraction or an exponent is no whole number.
    #[error("`{0}` is of the wrong kind")]
    WrongKind(&'static str),
    /// The member is a whole number that the type doesn't have.
    #[error("`{0}` is out of range")]
    OutOfRange(&'static str),
    #[error("out of memory")]
    NoMemory,
}

impl From<AllocError> for ViewError {
    ghost use Rattle.std.specs.Prelude.{◌≡◌};
    ghost use Rattle.json_view.specs.declared.error.ViewError.TheVariants.{NoMemory};

    ghost from_gives = { λ _ e. e ≡ NoMemory };

    fn from(_: AllocError) -> ViewError {
        ViewError::NoMemory
    }
}
