// Faults of parts of a head.
ghost use Rattle.std.specs.Prelude.{◌≡◌, IfOk};
ghost use Rattle.head_rules.specs.Faults as spec;

use shared_list::Listing;
use shared_text::Name;
use std::alloc::{AllocError, Global};
use type_data::{CType, Fault};

// One whose text prints no name and no type.
pub(crate) fn plain(alloc: Global, rule: u16, at: u32) -> Fault
    ensures { result ≡ spec.plain rule at }
{
    Fault {
        rule,
        at,
        names: Listing::from_vec(Vec::new(alloc)),
        types: Listing::from_vec(Vec::new(alloc)),
    }
}

// One whose text prints a name.
pub(crate) fn of_name(alloc: Global, rule: u16, at: u32, name: &Name) -> Result<Fault, AllocError>
    ensures { IfOk result (λ f. f ≡ spec.of_name rule at name.now) }
{
    let name = name.share()?;
    let names = vec![in alloc; name]?;
    Ok(Fault {
        rule,
        at,
        names: Listing::from_vec(names),
        types: Listing::from_vec(Vec::new(alloc)),
    })
}

// One whose text prints a name and a type.
pub(crate) fn of_type(
    alloc: Global,
    rule: u16,
    at: u32,
    name: &Name,
    ty: &CType,
) -> Result<Fault, AllocError>
    ensures { IfOk result (λ f. f ≡ spec.of_type rule at name.now ty.now) }
{
    let name = name.share()?;
    let names = vec![in alloc; name]?;
    let ty = ty.share()?;
    let types = vec![in alloc; ty]?;
    Ok(Fault {
        rule,
        at,
        names: Listing::from_vec(names),
        types: Listing::from_vec(types),
    })
}
