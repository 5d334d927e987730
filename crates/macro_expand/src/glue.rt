// What `##` makes of two tokens (ISO C11 6.10.3.3).
ghost use Rattle.std.specs.Prelude.{◌≡◌, ◌++◌, IfOk, OnOk, option_map};
ghost use Rattle.macro_expand.specs.Ties.Codes.{Names};
ghost use Rattle.macro_expand.specs.Ties.Stands.{Stands, Grows};
ghost use Rattle.macro_expand.specs.Ties.Numbers.{real};
ghost use Rattle.macro_expand.specs.Pasting as spec;

use crate::sets::Sets;
use crate::types::Marked;
use c_tokens::lex;
use shared_text::Name;
use std::alloc::{AllocError, Global};
use tok_data::{OutToken, PpKind, PpToken, Spelt};

// The longest token that `##` makes, in bytes.
const LONGEST_MADE: usize = 4_194_304;

fn only(text: &str, tokens: &[PpToken]) -> Option<PpKind>
    ensures { result ≡ spec.only text.now tokens.now }
{
    match tokens {
        [token] => {
            if token.spelling.as_str() == text {
                Some(token.kind)
            } else {
                None
            }
        }
        _ => None,
    }
}

// The kind of the single token that a text spells, where it is one.
#[tactic(auto, unfolding(crate::specs::Pasting::made_kind, crate::specs::Pasting::single_kind))]
fn made_kind(alloc: Global, text: &str) -> Result<Option<PpKind>, AllocError>
    ensures { IfOk result (λ kind. kind ≡ spec.made_kind text.now) }
{
    if LONGEST_MADE < text.len() {
        return Ok(None);
    }
    let lexed = lex(alloc, text)?;
    if !lexed.faults.as_slice().is_empty() {
        return Ok(None);
    }
    Ok(only(text, lexed.tokens.as_slice()))
}

fn both(alloc: Global, left: &str, right: &str) -> Result<Name, AllocError>
    ensures { IfOk result (λ name. name ≡ left.now ++ right.now) }
{
    let mut text = String::new(alloc);
    text.push_str(left)?;
    text.push_str(right)?;
    Name::from_str(alloc, text.as_str())
}

// The token that two make, where they make one.
#[tactic(auto, unfolding(crate::specs::Pasting::pasted))]
pub(crate) fn pasted(
    alloc: Global,
    sets: &mut Sets,
    left: &Marked,
    right: &Marked,
) -> Result<Option<Marked>, AllocError>
    ensures grows { OnOk result (Grows sets.old sets.new) }
    ensures value { IfOk result (λ t. (f : Names → Names) → Stands f sets.new
        → option_map (real f) t ≡ spec.pasted (real f left.now) (real f right.now)) }
{
    let spelling = both(
        alloc,
        left.token.spelling.as_str(),
        right.token.spelling.as_str(),
    )?;
    let kind = made_kind(alloc, spelling.as_str())?;
    let Some(kind) = kind else {
        return Ok(None);
    };
    let site = left.token.site.copy()?;
    let hides = sets.common(alloc, &left.hides, &right.hides)?;
    let token = OutToken {
        kind,
        spelling,
        space_before: left.token.space_before,
        spelt: Spelt::Made,
        site,
    };
    Ok(Some(Marked { token, hides }))
}
