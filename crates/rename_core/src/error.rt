// Why a name can't be given another one.
ghost use Rattle.std.specs.Prelude.{◌≡◌};

use crate::class::TwoMeanings;
use std::alloc::AllocError;
use tok_data::TokId;

/// Why a rename is refused: the first of these that holds, in this order, with the token that shows it; or want of memory.
#[derive(Drop)]
pub enum RenameError {
    /// The token denotes nothing.
    NoName,
    /// The new name is no identifier (ISO C11 6.4.2.1), is a keyword (6.4.1), or is longer than 1,023 bytes.
    NotIdentifier,
    /// A token to rename stands in a library text.
    Library(TokId),
    /// A token that `##` made (6.10.3.3), at this place, denotes what is to be renamed.
    Pasted(TokId),
    /// A token to rename is spelled as a text by `#` (6.10.3.2).
    Stringized(TokId),
    /// A token to rename denotes two entities in one unit.
    TwoMeanings(TwoMeanings),
    /// The name has external linkage, and this token denotes what has the new name with external linkage (6.2.2).
    ExternalTaken(TokId),
    /// With the new name a file would have other tokens, or this token would denote something else.
    Clash(TokId),
    /// There is no memory for the answer.
    NoMemory,
}

impl From<AllocError> for RenameError {
    ghost use Rattle.std.specs.Prelude.{◌≡◌};
    ghost use Rattle.rename_core.specs.declared.error.RenameError.TheVariants.{NoMemory};

    ghost from_gives = { λ _ e. e ≡ NoMemory };

    fn from(_: AllocError) -> RenameError {
        RenameError::NoMemory
    }
}
