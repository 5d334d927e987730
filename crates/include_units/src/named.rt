// Texts of the server's own, by the names under which units read them: `<command>`, and `<stddef.h>` of the library text of that header.
ghost use Rattle.std.specs.Prelude.{◌≡◌, ◌≤◌, length, map, option_map, IfOk, IfSome};
ghost use Rattle.std.specs.List.{find};
ghost use Rattle.std.specs.Option.{option_and_then};
ghost use Rattle.include_units.specs.Inclusion as library;
ghost use Rattle.include_units.specs.Named as spec;
ghost use Rattle.include_units.specs.Own.{own_tokens};
ghost use Rattle.include_units.specs.Units as unit;
ghost use Rattle.project_conf.specs.Defines.{AreUsable};

use crate::inclusion::{library_name, library_of};
use crate::shared::PpTokens;
use crate::units::command_text;
use c_tokens::lex;
use lib_texts::names;
use project_conf::Define;
use std::alloc::{AllocError, Global};

// The text of the one of these headers that a unit reads under this name.
fn library_among(
    alloc: Global,
    headers: &[&str],
    name: &str,
) -> Result<Option<&'static str>, AllocError>
    ensures text { IfOk result (λ text. option_map (λ t. t.now) text ≡ option_and_then library.library_of (find (spec.is_named name.now) (map (λ h. h.now) headers.now))) }
    ensures short { IfOk result (λ text. IfSome text (λ t. length t.now ≤ 4290772992)) }
{
    for header in headers {
        let whole = library_name(alloc, header)?;
        if whole.as_str() == name {
            return Ok(library_of(header));
        }
    }
    Ok(None)
}

// The library text that has this name.
#[tactic(auto, unfolding(crate::specs::Named::library_named))]
fn library_named(alloc: Global, name: &str) -> Result<Option<&'static str>, AllocError>
    ensures text { IfOk result (λ text. option_map (λ t. t.now) text ≡ spec.library_named name.now) }
    ensures short { IfOk result (λ text. IfSome text (λ t. length t.now ≤ 4290772992)) }
{
    let text = library_among(alloc, names(), name)?;
    Ok(text)
}

fn lexed_own(alloc: Global, text: &str) -> Result<PpTokens, AllocError>
    requires { length text.now ≤ 4290772992 }
    ensures { IfOk result (λ tokens. tokens ≡ own_tokens text.now) }
{
    let lexed = lex(alloc, text)?;
    let tokens = PpTokens::from_vec(alloc, lexed.tokens.into_vec())?;
    Ok(tokens)
}

// The tokens of `<command>` of a unit with these definitions.
fn command_tokens(alloc: Global, defines: &[Define]) -> Result<PpTokens, AllocError>
    requires { AreUsable 268435456 defines.now }
    ensures { IfOk result (λ tokens. tokens ≡ own_tokens (unit.command_text defines.now)) }
{
    let text = command_text(alloc, defines)?;
    let tokens = lexed_own(alloc, text.as_str())?;
    Ok(tokens)
}

/// The tokens of the text of the server's own that units read under this name: of `<command>`, whose lines are made of a unit's definitions, or of a
/// library text, as `<stddef.h>`; none exactly where no such text has the name, as where it is a path. The names of the definitions are
/// identifiers, and their names and texts have together at most 2^28 bytes. It costs one lexing of the text, and fails for want of memory alone.
pub fn tokens_named(
    alloc: Global,
    defines: &[Define],
    name: &str,
) -> Result<Option<PpTokens>, AllocError>
    requires { AreUsable 268435456 defines.now }
    ensures { IfOk result (λ tokens. tokens ≡ spec.tokens_named defines.now name.now) }
{
    if name == "<command>" {
        let tokens = command_tokens(alloc, defines)?;
        return Ok(Some(tokens));
    }
    let text = library_named(alloc, name)?;
    match text {
        Some(text) => {
            let tokens = lexed_own(alloc, text)?;
            Ok(Some(tokens))
        }
        None => Ok(None),
    }
}
