// The texts of refusals that a client is told.
ghost use Rattle.std.specs.Prelude.{◌≡◌, ◌++◌, string_bytes, IfOk};
ghost use Rattle.json_view.specs.Refusals.{refusal};
ghost use Rattle.c_session.specs.Refusals.{refusal_text, uri_refusal};

use json_view::ViewError;
use std::alloc::{AllocError, Global};
use uri_paths::UriError;

/// The text of params that aren't as stated: the refusal's name and the key of the member. Want of memory has none.
pub fn refusal_text(alloc: Global, error: ViewError) -> Result<String, AllocError>
    ensures { IfOk result (λ text. string_bytes text ≡ refusal_text (refusal error)) }
{
    match error {
        ViewError::Missing(key) => joined(alloc, "params: Missing ", key),
        ViewError::WrongKind(key) => joined(alloc, "params: WrongKind ", key),
        ViewError::OutOfRange(key) => joined(alloc, "params: OutOfRange ", key),
        ViewError::NoMemory => Err(AllocError),
    }
}

fn joined(alloc: Global, name: &str, key: &str) -> Result<String, AllocError>
    ensures { IfOk result (λ text. string_bytes text ≡ name.now ++ key.now) }
{
    let mut text = String::from_str(alloc, name)?;
    text.push_str(key)?;
    Ok(text)
}

/// The text of a URI that names no path. That of want of memory is empty.
pub fn uri_refusal(error: UriError) -> &'static str
    ensures { result.now ≡ uri_refusal error }
{
    match error {
        UriError::NotUrl => "uri: NotUrl",
        UriError::NotFile => "uri: NotFile",
        UriError::HasHost => "uri: HasHost",
        UriError::NotText => "uri: NotText",
        UriError::NoMemory => "",
    }
}
