// The fault of a statement.
ghost use Rattle.std.specs.Prelude.{◌≡◌, [], ◌∷◌, IfOk};
ghost use Rattle.stmt_rules.specs.Faults as spec;

use shared_list::Listing;
use shared_text::Name;
use std::alloc::{AllocError, Global};
use type_data::{CType, Fault};

/// One whose text prints nothing of the statement.
pub(crate) fn fault(alloc: Global, rule: u16, at: u32) -> Fault
    ensures { result ≡ spec.fault rule at [] [] }
{
    Fault {
        rule,
        at,
        names: Listing::from_vec(Vec::new(alloc)),
        types: Listing::from_vec(Vec::new(alloc)),
    }
}

/// One whose text prints a name.
pub(crate) fn fault_of_name(
    alloc: Global,
    rule: u16,
    at: u32,
    name: &Name,
) -> Result<Fault, AllocError>
    ensures { IfOk result (λ f. f ≡ spec.fault rule at (name.now ∷ []) []) }
{
    let name = name.share()?;
    let names = vec![in alloc; name]?;
    Ok(Fault {
        rule,
        at,
        names: Listing::from_vec(names),
        types: Listing::from_vec(Vec::new(alloc)),
    })
}

/// One whose text prints a type.
pub(crate) fn fault_of_type(
    alloc: Global,
    rule: u16,
    at: u32,
    ty: &CType,
) -> Result<Fault, AllocError>
    ensures { IfOk result (λ f. f ≡ spec.fault rule at [] (ty.now ∷ [])) }
{
    let ty = ty.share()?;
    let types = vec![in alloc; ty]?;
    Ok(Fault {
        rule,
        at,
        names: Listing::from_vec(Vec::new(alloc)),
        types: Listing::from_vec(types),
    })
}

/// One whose text prints two types.
pub(crate) fn fault_of_types(
    alloc: Global,
    rule: u16,
    at: u32,
    a: &CType,
    b: &CType,
) -> Result<Fault, AllocError>
    ensures { IfOk result (λ f. f ≡ spec.fault rule at [] (a.now ∷ b.now ∷ [])) }
{
    let a = a.share()?;
    let b = b.share()?;
    let types = vec![in alloc; a, b]?;
    Ok(Fault {
        rule,
        at,
        names: Listing::from_vec(Vec::new(alloc)),
        types: Listing::from_vec(types),
    })
}
