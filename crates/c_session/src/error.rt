// Why a content has no reply.
use std::alloc::AllocError;
use thiserror::Error;

/// Why a content has no reply. The session isn't used again.
#[derive(Clone, Copy, Debug, PartialEq, Eq, Error)]
pub enum SessionError {
    /// The store's count of faults rose.
    #[error("store fault")]
    StoreFault,
    #[error("out of memory")]
    NoMemory,
}

impl From<AllocError> for SessionError {
    ghost use Rattle.std.specs.Prelude.{◌≡◌};
    ghost use Rattle.c_session.specs.declared.error.SessionError.TheVariants.{NoMemory};

    ghost from_gives = { λ _ e. e ≡ NoMemory };

    fn from(_error: AllocError) -> SessionError {
        SessionError::NoMemory
    }
}
