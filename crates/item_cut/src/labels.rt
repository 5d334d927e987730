// The label of an item.
ghost use Rattle.std.specs.Prelude.{◌≡◌, not, ◌&&◌, IfOk};
ghost use Rattle.item_cut.specs.Labels as spec;

use crate::marks::is_name_end;
use shared_text::Name;
use std::alloc::{AllocError, Global};
use tok_data::{OutToken, PpKind, is_keyword};

fn is_ident(kind: PpKind) -> bool
    ensures { result ≡ spec.is_ident kind }
{
    matches!(kind, PpKind::Ident)
}

#[tactic(auto, unfolding(crate::specs::Labels::is_name))]
fn is_name(token: &OutToken) -> bool
    ensures { result ≡ spec.is_name token.now }
{
    is_ident(token.kind) && !is_keyword(token.spelling.as_str())
}

fn begins_end(tokens: &[OutToken]) -> bool
    ensures { result ≡ spec.begins_end tokens.now }
{
    match tokens.split_first() {
        Some((token, _)) => is_name_end(token.spelling.as_str()),
        None => false,
    }
}

fn is_label(token: &OutToken, behind: &[OutToken]) -> bool
    ensures { result ≡ (spec.is_name token.now && spec.begins_end behind.now) }
{
    begins_end(behind) && is_name(token)
}

/// The label of an item: the spelling of its first identifier, no keyword, that `(`, `[`, `=`, `,`, `;` or `{` follows
/// (a digraph counts as what it stands for), or the empty text where there is none.
pub fn label(alloc: Global, item: &[OutToken]) -> Result<Name, AllocError>
    ensures { IfOk result (λ name. name ≡ spec.label item.now) }
{
    let mut rest = item;
    while let Some((token, behind)) = rest.split_first() {
        if is_label(token, behind) {
            return token.spelling.share();
        }
        rest = behind;
    }
    Name::from_str(alloc, "")
}
