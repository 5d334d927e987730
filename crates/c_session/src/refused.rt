// How a refused rename is told.
ghost use Rattle.std.specs.Prelude.{◌≡◌};
ghost use Rattle.c_session.specs.Refused as spec;

use rename_core::RenameError;

/// The code of the error response to a rename that is refused so: InvalidParams where the new name is no identifier, else RequestFailed (LSP 3.17, ErrorCodes). It takes no memory.
#[tactic(auto, unfolding(crate::specs::Refused::refusal_code))]
pub fn refusal_code(error: &RenameError) -> i32
    ensures { result ≡ spec.refusal_code error.now }
{
    match error {
        RenameError::NoName => -32803,
        RenameError::NotIdentifier => -32602,
        RenameError::Library(_) => -32803,
        RenameError::Pasted(_) => -32803,
        RenameError::Stringized(_) => -32803,
        RenameError::TwoMeanings(_) => -32803,
        RenameError::ExternalTaken(_) => -32803,
        RenameError::Clash(_) => -32803,
        RenameError::NoMemory => -32803,
    }
}

/// The name of a refusal, which is the message of that response. It takes no memory.
#[tactic(auto, unfolding(crate::specs::Refused::refusal_name))]
pub fn refusal_name(error: &RenameError) -> &'static str
    ensures { result.now ≡ spec.refusal_name error.now }
{
    match error {
        RenameError::NoName => "NoName",
        RenameError::NotIdentifier => "NotIdentifier",
        RenameError::Library(_) => "Library",
        RenameError::Pasted(_) => "Pasted",
        RenameError::Stringized(_) => "Stringized",
        RenameError::TwoMeanings(_) => "TwoMeanings",
        RenameError::ExternalTaken(_) => "ExternalTaken",
        RenameError::Clash(_) => "Clash",
        RenameError::NoMemory => "NoMemory",
    }
}
