// The `file:` URIs of paths.
ghost use Rattle.std.specs.Prelude.{◌≡◌, ◌≢◌, ◌==◌, ℕ, List, false, IsUtf8, Ok, Err, IfOk, All, option_map, if◌then◌else◌, Some, None};
ghost use Rattle.std.specs.List.{list_any};
ghost use Rattle.std.specs.String.{string_bytes};
ghost use Rattle.uri_paths.specs.declared.error.UriError.TheVariants.{NotText, NoMemory};
ghost use Rattle.uri_paths.specs.Paths.{IsPath, components, path_of_names};
ghost use Rattle.uri_paths.specs.Uris.{is_path_text, path_of_uri, uri_of_path};

use crate::error::UriError;
use crate::parts::{components, has_dots};
use crate::path::Path;
use percent_encoding::{
    AsciiSet, NON_ALPHANUMERIC, ascii_set, percent_decode, utf8_percent_encode,
};
use std::alloc::{AllocError, Global};
use std::str;
use url::{ParseError, Url};

/// The bytes that a URI of a path escapes: all but letters, digits and `-._~/`.
const ESCAPED: AsciiSet = ascii_set!(
    NON_ALPHANUMERIC
        .remove(b'-')
        .remove(b'.')
        .remove(b'_')
        .remove(b'~')
        .remove(b'/')
);

/// The path that a `file:` URI names: its path by the URL Standard, decoded once, without its empty components.
pub fn path_of(alloc: Global, uri: &str) -> Result<Path, UriError>
    ensures { result ≢ Err NoMemory → result ≡ path_of_uri uri.now }
{
    let url = match Url::parse(alloc, uri) {
        Ok(url) => url,
        Err(ParseError::OutOfMemory | ParseError::Overflow) => return Err(UriError::NoMemory),
        Err(_) => return Err(UriError::NotUrl),
    };
    if url.scheme() != "file" {
        return Err(UriError::NotFile);
    }
    if url.has_host() {
        return Err(UriError::HasHost);
    }
    let mut bytes = Vec::new(alloc);
    percent_decode(url.path().as_bytes()).append_to(&mut bytes)?;
    match path_from_bytes(alloc, &bytes)? {
        Some(path) => Ok(path),
        None => Err(UriError::NotText),
    }
}

/// The path that some bytes spell, or None where they aren't the text of one.
#[tactic(auto, unfolding(crate::specs::Uris::is_path_text))]
fn path_from_bytes(alloc: Global, bytes: &[u8]) -> Result<Option<Path>, AllocError>
    ensures { IfOk result (λ path. path ≡ (if is_path_text bytes.now then Some (path_of_names (components bytes.now)) else None)) }
{
    let Ok(text) = str::from_utf8(bytes) else {
        return Ok(None);
    };
    if bytes.contains(&0) || has_dots(text) {
        return Ok(None);
    }
    let names = components(alloc, text)?;
    Ok(Some(Path::from_names(alloc, &names)?))
}

/// The URI of a path: `file://` and the path, in which every byte but ASCII letters, digits and `-._~/` is escaped.
pub fn uri_of(alloc: Global, path: &Path) -> Result<String, AllocError>
    ensures { IfOk result (λ uri. string_bytes uri ≡ uri_of_path path.now) }
{
    let mut uri = String::from_str(alloc, "file://")?;
    utf8_percent_encode(path.as_str(), ESCAPED).append_to(&mut uri)?;
    Ok(uri)
}

/// A law of the definitions, which has nothing to run: the URI of a path without a zero byte names that path.
pub fn paths_read_back()
    ensures { (path : List ℕ) → IsPath path → IsUtf8 path → list_any (λ b. b == 0) path ≡ false → path_of_uri (uri_of_path path) ≡ Ok path }
{}
