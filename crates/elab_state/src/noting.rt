// Faults that are noted.
ghost use Rattle.std.specs.Prelude.{◌≡◌, [], OnOk};
ghost use Rattle.elab_state.specs.Doings as spec;

use crate::made::Made;
use shared_list::Listing;
use shared_text::Name;
use std::alloc::{AllocError, Global};
use type_data::Fault;

/// A fault that prints no name and no type.
pub fn fault_at(alloc: Global, rule: u16, at: u32) -> Fault
    ensures { result ≡ spec.fault rule at [] [] }
{
    Fault {
        rule,
        at,
        names: Listing::from_vec(Vec::new(alloc)),
        types: Listing::from_vec(Vec::new(alloc)),
    }
}

/// Notes that something is left out of the language that is served, and what it is.
pub fn leave_out(alloc: Global, made: &mut Made, what: &str, at: u32) -> Result<(), AllocError>
    ensures { OnOk result (made.new ≡ spec.left_out what.now at made.old) }
{
    let name = Name::from_str(alloc, what)?;
    let names = vec![in alloc; name]?;
    let fault = Fault {
        rule: 304,
        at,
        names: Listing::from_vec(names),
        types: Listing::from_vec(Vec::new(alloc)),
    };
    made.faults.push(fault)?;
    Ok(())
}
