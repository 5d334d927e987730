// The fault of a declarator.
ghost use Rattle.std.specs.Prelude.{◌≡◌, IfOk};
ghost use Rattle.decl_rules.specs.Faults as spec;

use crate::parts::DeclParts;
use shared_list::Listing;
use shared_text::Name;
use std::alloc::{AllocError, Global};
use type_data::{CType, Fault};

// One whose text prints the name, and types.
pub(crate) fn of_name(
    alloc: Global,
    rule: u16,
    decl: &DeclParts,
    types: Vec<CType>,
) -> Result<Fault, AllocError>
    ensures { IfOk result (λ f. f ≡ spec.of_name rule decl.now types.items) }
{
    let name = decl.name.share()?;
    let names = vec![in alloc; name]?;
    Ok(Fault {
        rule,
        at: decl.at,
        names: Listing::from_vec(names),
        types: Listing::from_vec(types),
    })
}

// One whose text prints types alone.
pub(crate) fn of_types(alloc: Global, rule: u16, decl: &DeclParts, types: Vec<CType>) -> Fault
    ensures { result ≡ spec.of_types rule decl.now types.items }
{
    Fault {
        rule,
        at: decl.at,
        names: Listing::from_vec(Vec::new(alloc)),
        types: Listing::from_vec(types),
    }
}
