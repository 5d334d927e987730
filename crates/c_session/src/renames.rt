// The params of a rename (LSP 3.17, textDocument/rename).
ghost use Rattle.std.specs.Prelude.{◌≡◌, option_map};
ghost use Rattle.serde_json.specs.View.{view};
ghost use Rattle.json_view.specs.Refusals.{seen};
ghost use Rattle.c_session.specs.Renames as spec;
ghost use Rattle.c_session.specs.Ties.Refused.{Answers};
ghost use Rattle.c_session.specs.Ties.Renamings.{seen_renaming, seen_wanted};

use crate::documents::path_at;
use crate::params::{document_in, params_in};
use crate::questions::position_in;
use crate::reasons::Refusal;
use json_view::{ViewError, get_str};
use serde_json::Value;
use std::alloc::Global;
use text_lines::Pos;
use uri_paths::Path;

/// Another name for what a position denotes in the file that a URI names. Both are lent by the params.
#[derive(Clone, Copy, Debug)]
pub struct Wanted<'a> {
    pub uri: &'a str,
    pub pos: Pos,
    pub new_name: &'a str,
}

/// The same by the file's path.
#[derive(Debug, Drop)]
pub struct Renaming<'a> {
    pub path: Path,
    pub pos: Pos,
    pub new_name: &'a str,
}

fn new_name_in<'a>(params: Option<&'a Value>) -> Result<&'a str, ViewError>
    ensures { seen (λ name. name.now) result ≡ spec.new_name_in (option_map (λ v. view v.now) params.entry) }
{
    let found = params_in(params)?;
    match found {
        Some(params) => get_str(params, "newName"),
        None => Err(ViewError::Missing("newName")),
    }
}

/// What the params say.
#[tactic(auto, unfolding(crate::specs::Renames::wanted_in))]
fn wanted_in<'a>(params: Option<&'a Value>) -> Result<Wanted<'a>, ViewError>
    ensures { seen seen_wanted result ≡ spec.wanted_in (option_map (λ v. view v.now) params.entry) }
{
    let document = document_in(params)?;
    let uri = get_str(document, "uri")?;
    let pos = position_in(params)?;
    let new_name = new_name_in(params)?;
    Ok(Wanted { uri, pos, new_name })
}

/// What is to be renamed, and to what.
#[tactic(auto, unfolding(crate::specs::Renames::renaming_in))]
pub(crate) fn renaming_in<'a>(
    alloc: Global,
    params: Option<&'a Value>,
) -> Result<Renaming<'a>, Refusal>
    ensures { Answers seen_renaming result (spec.renaming_in (option_map (λ v. view v.now) params.entry)) }
{
    let wanted = match wanted_in(params) {
        Ok(wanted) => wanted,
        Err(error) => return Err(Refusal::of_params(error)),
    };
    match path_at(alloc, wanted.uri) {
        Ok(path) => Ok(Renaming {
            path,
            pos: wanted.pos,
            new_name: wanted.new_name,
        }),
        Err(refusal) => Err(refusal),
    }
}
