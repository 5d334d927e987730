// Whether units see of one another what they saw.
ghost use Rattle.std.specs.Prelude.{◌≡◌, true, ℕ, List};
ghost use Rattle.std.specs.Cmp.Lexicographic.{pointwise};
ghost use Rattle.unit_index.specs.Crossing.{same_seen, sight};

use scope_tables::{Export, Exports};

/// The same is seen of two names.
pub(super) fn is_seen_as(a: &Export, b: &Export) -> bool
    ensures { result ≡ same_seen a.now b.now }
{
    a.name == b.name && a.ty == b.ty && a.defined.is_some() == b.defined.is_some()
}

fn same_names(a: &[Export], b: &[Export]) -> bool
    ensures { result ≡ pointwise same_seen a.now b.now }
{
    let mut rest = a;
    let mut others = b;
    'names: while let Some((one, behind)) = rest.split_first() {
        rest = behind;
        let Some((other, behind)) = others.split_first() else {
            return false;
        };
        others = behind;
        if !is_seen_as(one, other) {
            return false;
        }
    }
    others.is_empty()
}

/// True only where other units see the same of a unit, whichever of these it shows: its names in order, their types, whether it defines
/// each, and its tags. On which tokens it declares and defines them makes no difference. It costs the names, their types and the tags.
pub(super) fn same_sight(a: &Exports, b: &Exports) -> bool
    ensures { result ≡ true → (path : List ℕ) → sight (record { path = path; exports = a.now }) ≡ sight (record { path = path; exports = b.now }) }
{
    same_names(a.names.as_slice(), b.names.as_slice()) && a.tags.are_alike(&b.tags)
}
