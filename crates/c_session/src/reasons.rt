// Why the params of a message are refused.
ghost use Rattle.std.specs.Prelude.{◌≡◌, ◌≢◌, IfOk, string_bytes};
ghost use Rattle.c_session.specs.Ties.Refused.{reason, of_params, of_uri, of_texts};
ghost use Rattle.c_session.specs.Reasons.{reason_text};
ghost use Rattle.c_session.specs.declared.reasons.Refusal.TheVariants.{NoMemory};

use crate::refusals::{refusal_text, uri_refusal};
use doc_texts::DocError;
use json_view::ViewError;
use std::alloc::{AllocError, Global};
use uri_paths::UriError;

/// Why the params of a message are refused: by themselves, by a URI in them, or by the texts.
#[derive(Clone, Copy, Debug, PartialEq, Eq)]
pub(crate) enum Refusal {
    Params(ViewError),
    Uri(UriError),
    Texts(DocError),
    NoMemory,
}

impl Refusal {
    pub(crate) fn of_params(error: ViewError) -> Refusal
        ensures { result ≡ of_params error }
    {
        match error {
            ViewError::NoMemory => Refusal::NoMemory,
            _ => Refusal::Params(error),
        }
    }

    pub(crate) fn of_uri(error: UriError) -> Refusal
        ensures { result ≡ of_uri error }
    {
        match error {
            UriError::NoMemory => Refusal::NoMemory,
            _ => Refusal::Uri(error),
        }
    }

    pub(crate) fn of_texts(error: DocError) -> Refusal
        ensures { result ≡ of_texts error }
    {
        match error {
            DocError::NoMemory => Refusal::NoMemory,
            _ => Refusal::Texts(error),
        }
    }

    /// The text of the refusal.
    pub(crate) fn text(self, alloc: Global) -> Result<String, AllocError>
        ensures refused { IfOk result (λ _. self ≢ NoMemory) }
        ensures text { IfOk result (λ text. string_bytes text ≡ reason_text (reason self)) }
    {
        match self {
            Refusal::Params(error) => refusal_text(alloc, error),
            Refusal::Uri(error) => String::from_str(alloc, uri_refusal(error)),
            Refusal::Texts(error) => String::from_str(alloc, error.name()),
            Refusal::NoMemory => Err(AllocError),
        }
    }
}
