// What stands between the slashes of a text.
ghost use Rattle.std.specs.Prelude.{◌≡◌, ◌<◌, ◌++◌, ◌∷◌, [], map, length, IfOk, IfSome};
ghost use Rattle.std.specs.List.{list_all, list_any};
ghost use Rattle.std.specs.Option.{option_map_or};
ghost use Rattle.uri_paths.specs.Parts.{parts, is_name};
ghost use Rattle.uri_paths.specs.Paths.{components};
ghost use Rattle.uri_paths.specs.Uris.{has_dots};

use std::alloc::{AllocError, Global};

/// The part in front of a text's first slash, and what stands behind that slash where there is one.
pub(crate) fn split_part(text: &str) -> (&str, Option<&str>)
    ensures parts { parts text.now ≡ result.0.now ∷ option_map_or (λ rest. parts rest.now) result.1 [] }
    ensures shorter { IfSome result.1 (λ rest. length rest.now < length text.now) }
{
    match text.split_once('/') {
        Some((part, rest)) => (part, Some(rest)),
        None => (text, None),
    }
}

/// Whether a part is the name of a file or folder.
fn is_name(part: &str) -> bool
    ensures { result ≡ is_name part.now }
{
    !(part.is_empty() || part == "." || part == "..")
}

/// Whether each part of a text is a name.
pub(crate) fn are_names(text: &str) -> bool
    ensures { result ≡ list_all is_name (parts text.now) }
{
    let mut rest = text;
    loop {
        let (part, more) = split_part(rest);
        if !is_name(part) {
            return false;
        }
        let Some(behind) = more else { return true };
        rest = behind;
    }
}

/// Whether a text has a part `.` or `..`.
pub(crate) fn has_dots(text: &str) -> bool
    ensures { result ≡ has_dots text.now }
{
    let mut rest = text;
    loop {
        let (part, more) = split_part(rest);
        if part == "." || part == ".." {
            return true;
        }
        let Some(behind) = more else { return false };
        rest = behind;
    }
}

/// The parts of a text that aren't empty.
#[tactic(auto, unfolding(crate::specs::Paths::components))]
pub(crate) fn components(alloc: Global, text: &str) -> Result<Vec<&str>, AllocError>
    ensures { IfOk result (λ names. map (λ name. name.now) names.items ≡ components text.now) }
{
    let mut names = Vec::new(alloc);
    let mut rest = text;
    loop {
        let (part, more) = split_part(rest);
        if !part.is_empty() {
            names.push(part)?;
        }
        let Some(behind) = more else { return Ok(names) };
        rest = behind;
    }
}
