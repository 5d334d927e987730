// Why a URI names no path.
ghost use Rattle.std.specs.Prelude.{◌≡◌};

use std::alloc::AllocError;
use thiserror::Error;

/// Why a URI names no path: the first of these that holds, in this order, or want of memory.
#[derive(Clone, Copy, Debug, PartialEq, Eq, Error)]
pub enum UriError {
    /// The text is no absolute URL by the URL Standard.
    #[error("the text is no URL")]
    NotUrl,
    /// Its scheme isn't `file`.
    #[error("the URL's scheme is not `file`")]
    NotFile,
    /// It names a host, which isn't `localhost`.
    #[error("the URL names a host")]
    HasHost,
    /// Its decoded path isn't UTF-8, has a zero byte, or has a component `.` or `..`.
    #[error("the URL's path is no text of a path")]
    NotText,
    /// There is no memory for the answer, or the URL is longer than `url` reads.
    #[error("out of memory")]
    NoMemory,
}

impl From<AllocError> for UriError {
    ghost use Rattle.std.specs.Prelude.{◌≡◌};
    ghost use Rattle.uri_paths.specs.declared.error.UriError.TheVariants.{NoMemory};

    ghost from_gives = { λ _ e. e ≡ NoMemory };

    fn from(_: AllocError) -> UriError {
        UriError::NoMemory
    }
}
