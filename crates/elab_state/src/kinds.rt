// Kinds of scopes.
ghost use Rattle.std.specs.Prelude.{◌≡◌};
ghost use Rattle.elab_state.specs.Doings as spec;

use scope_tables::ScopeKind;

pub(crate) fn or_file(kind: Option<ScopeKind>) -> ScopeKind
    ensures { result ≡ spec.or_file kind }
{
    match kind {
        Some(kind) => kind,
        None => ScopeKind::File,
    }
}
