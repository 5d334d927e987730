// The lists that words of the command line have.
ghost use Rattle.std.specs.Prelude.{◌≡◌, ◌∷◌, [], ◌<◌, length, IfOk, IfSome};
ghost use Rattle.std.specs.Option.{option_map_or};
ghost use Rattle.project_conf.specs.Lists.{all_said, parts_of, colon, semicolon, folder_in, define_in, folders_listed, defines_listed};

use crate::options::{Define, Defines, Folder, Folders};
use crate::settings::split_define;
use c_tokens::is_identifier;
use shared_text::Name;
use std::alloc::{AllocError, Global};

// A longer list is none.
const MOST_BYTES: usize = 65_536;

// The part of a list in front of its first `:`, and what stands behind that where there is one.
fn split_folder(list: &str) -> (&str, Option<&str>)
    ensures parts { parts_of colon list.now ≡ result.0.now ∷ option_map_or (λ rest. parts_of colon rest.now) result.1 [] }
    ensures shorter { IfSome result.1 (λ rest. length rest.now < length list.now) }
{
    match list.split_once(':') {
        Some((part, rest)) => (part, Some(rest)),
        None => (list, None),
    }
}

// The part of a list in front of its first `;`, and what stands behind that where there is one.
fn split_definition(list: &str) -> (&str, Option<&str>)
    ensures parts { parts_of semicolon list.now ≡ result.0.now ∷ option_map_or (λ rest. parts_of semicolon rest.now) result.1 [] }
    ensures shorter { IfSome result.1 (λ rest. length rest.now < length list.now) }
{
    match list.split_once(';') {
        Some((part, rest)) => (part, Some(rest)),
        None => (list, None),
    }
}

fn folder_in(alloc: Global, part: &str) -> Result<Option<Folder>, AllocError>
    ensures { IfOk result (λ folder. folder ≡ folder_in part.now) }
{
    if part.is_empty() {
        return Ok(None);
    }
    let text = String::from_str(alloc, part)?;
    Ok(Some(Folder::from_string(text)))
}

/// The definition that a part says, None where its name is no identifier.
pub(crate) fn define_in(alloc: Global, part: &str) -> Result<Option<Define>, AllocError>
    ensures { IfOk result (λ define. define ≡ define_in part.now) }
{
    let (name, text) = split_define(part);
    if !is_identifier(name) {
        return Ok(None);
    }
    let name = Name::from_str(alloc, name)?;
    let text = Name::from_str(alloc, text)?;
    Ok(Some(Define::Set(name, text)))
}

fn all_folders(alloc: Global, list: &str) -> Result<Option<Folders>, AllocError>
    ensures { IfOk result (λ folders. folders ≡ all_said folder_in (parts_of colon list.now)) }
{
    let mut folders = Vec::new(alloc);
    let mut rest = list;
    'parts: loop {
        let (part, more) = split_folder(rest);
        let Some(folder) = folder_in(alloc, part)? else {
            return Ok(None);
        };
        folders.push(folder)?;
        let Some(behind) = more else {
            return Ok(Some(Folders::from_vec(folders)));
        };
        rest = behind;
    }
}

fn all_defines(alloc: Global, list: &str) -> Result<Option<Defines>, AllocError>
    ensures { IfOk result (λ defines. defines ≡ all_said define_in (parts_of semicolon list.now)) }
{
    let mut defines = Vec::new(alloc);
    let mut rest = list;
    'parts: loop {
        let (part, more) = split_definition(rest);
        let Some(define) = define_in(alloc, part)? else {
            return Ok(None);
        };
        defines.push(define)?;
        let Some(behind) = more else {
            return Ok(Some(Defines::from_vec(defines)));
        };
        rest = behind;
    }
}

/// The folders of a list, which are parted by `:`; None exactly where it has more than 65,536 bytes or a part of it is empty.
pub(crate) fn folders_listed(alloc: Global, list: &str) -> Result<Option<Folders>, AllocError>
    ensures { IfOk result (λ folders. folders ≡ folders_listed list.now) }
{
    if list.len() > MOST_BYTES {
        return Ok(None);
    }
    all_folders(alloc, list)
}

/// The definitions of a list, which are parted by `;`; None exactly where it has more than 65,536 bytes or the name of a part is no
/// identifier (ISO C11 6.4.2.1), as that of an empty part.
pub(crate) fn defines_listed(alloc: Global, list: &str) -> Result<Option<Defines>, AllocError>
    ensures { IfOk result (λ defines. defines ≡ defines_listed list.now) }
{
    if list.len() > MOST_BYTES {
        return Ok(None);
    }
    all_defines(alloc, list)
}
