// The typedef names among the identifiers of a head or a body, as they are at its front (ISO C11 6.7.8).
ghost use Rattle.std.specs.Prelude.{◌≡◌, IfOk, option_map};
ghost use Rattle.elab_state.specs.Tokens.{bare_tokens};
ghost use Rattle.stmt_checks.specs.TypeNames as spec;

use elab_state::is_identifier;
use scope_tables::{Entity, EntityKind, Scopes};
use shared_text::Name;
use std::alloc::{AllocError, Global};
use tok_data::OutToken;
use type_data::Space;

fn is_typedef_kind(kind: &EntityKind) -> bool
    ensures { result ≡ spec.is_typedef_kind kind.now }
{
    match kind {
        EntityKind::Typedef => true,
        EntityKind::Object => false,
        EntityKind::Function => false,
        EntityKind::Tag(_, _) => false,
        EntityKind::Enumerator => false,
        EntityKind::Member => false,
        EntityKind::Label => false,
    }
}

fn is_typedef(entity: Option<&Entity>) -> bool
    ensures { result ≡ spec.is_typedef (option_map (λ e. e.now) entity.entry) }
{
    match entity {
        Some(entity) => is_typedef_kind(&entity.kind),
        None => false,
    }
}

fn names_type(names: &Scopes, token: &OutToken) -> bool
    ensures { result ≡ spec.names_type names.now token.now }
{
    if !is_identifier(token) {
        return false;
    }
    is_typedef(names.find(&Space::Ordinary, token.spelling.as_str()))
}

/// The typedef names among the identifiers of these tokens, where these names are visible, as often as they stand there.
pub(crate) fn type_names(
    alloc: Global,
    names: &Scopes,
    tokens: &[OutToken],
) -> Result<Vec<Name>, AllocError>
    ensures { IfOk result (λ v. v.items ≡ spec.type_names names.now (bare_tokens tokens.now)) }
{
    let mut made = Vec::new(alloc);
    let mut rest = tokens;
    'tokens: while let Some((token, behind)) = rest.split_first() {
        rest = behind;
        if names_type(names, token) {
            let name = token.spelling.share()?;
            made.push(name)?;
            continue;
        }
    }
    Ok(made)
}
