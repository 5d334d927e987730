// Why a call changes no text.
ghost use Rattle.std.specs.Prelude.{◌≡◌};
ghost use Rattle.doc_texts.specs.Docs.{doc_error_name};

use std::alloc::AllocError;
use thiserror::Error;

/// Why a call of `Docs` changes nothing. Where several hold it is the first in this order: OutsideRoot; AlreadyOpen or NotOpen;
/// NotText; Reversed and TooLong, change by change; TooManyFiles; TooMuchText.
#[derive(Clone, Copy, Debug, PartialEq, Eq, Error)]
pub enum DocError {
    /// A document is open at the path.
    #[error("the document is open already")]
    AlreadyOpen,
    /// No document is open at the path.
    #[error("no such document is open")]
    NotOpen,
    /// The end of a change's range lies before its start, by their offsets in the text that the change before left.
    #[error("a range ends before it starts")]
    Reversed,
    /// A text would have more than 4,194,304 bytes.
    #[error("the text is too long")]
    TooLong,
    /// More than 4,096 paths would have a text.
    #[error("there are too many files")]
    TooManyFiles,
    /// There is a root, and the path isn't under it.
    #[error("the path is outside the root")]
    OutsideRoot,
    /// All texts, on disk and open, would have more than 67,108,864 bytes together.
    #[error("there is too much text")]
    TooMuchText,
    /// The bytes aren't UTF-8.
    #[error("the bytes are no text")]
    NotText,
    /// There is no memory for what is meant.
    #[error("out of memory")]
    NoMemory,
}

impl DocError {
    /// The reason's name, as it stands in this enum.
    pub fn name(self) -> &'static str
        ensures { result.now ≡ doc_error_name self }
    {
        match self {
            DocError::AlreadyOpen => "AlreadyOpen",
            DocError::NotOpen => "NotOpen",
            DocError::Reversed => "Reversed",
            DocError::TooLong => "TooLong",
            DocError::TooManyFiles => "TooManyFiles",
            DocError::OutsideRoot => "OutsideRoot",
            DocError::TooMuchText => "TooMuchText",
            DocError::NotText => "NotText",
            DocError::NoMemory => "NoMemory",
        }
    }
}

impl From<AllocError> for DocError {
    ghost use Rattle.std.specs.Prelude.{◌≡◌};
    ghost use Rattle.doc_texts.specs.declared.error.DocError.TheVariants.{NoMemory};

    ghost from_gives = { λ _ e. e ≡ NoMemory };

    fn from(_: AllocError) -> DocError {
        DocError::NoMemory
    }
}
