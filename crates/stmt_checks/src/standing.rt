// What is known of a body up to a place in it (ISO C11 6.8), and small changes of it.
ghost use Rattle.std.specs.Prelude.{◌≡◌, OnOk};
ghost use Rattle.stmt_checks.specs.Standings as spec;

use elab_state::Made;
use scope_tables::{ScopeKind, Scopes};
use std::alloc::AllocError;
use stmt_rules::Switches;
use type_data::Fault;

/// What is known of a body up to a place in it.
#[derive(Drop)]
pub struct Standing {
    pub(crate) made: Made,
    /// The `switch` statements round the place.
    pub(crate) switches: Switches,
    /// The labels in front of it.
    pub(crate) labels: Scopes,
}

/// Notes a fault, if there is one.
pub(crate) fn tell(standing: &mut Standing, fault: Option<Fault>) -> Result<(), AllocError>
    ensures { OnOk result (standing.new ≡ spec.told fault standing.old) }
{
    match fault {
        Some(fault) => {
            standing.made.faults.push(fault)?;
            Ok(())
        }
        None => Ok(()),
    }
}

/// A block begins (6.8.2p2).
pub(crate) fn enter(standing: &mut Standing) -> Result<(), AllocError>
    ensures { OnOk result (standing.new ≡ spec.entered standing.old) }
{
    standing.made.names.enter(ScopeKind::Block)?;
    Ok(())
}

/// The innermost block ends.
pub(crate) fn leave(standing: &mut Standing)
    ensures { standing.new ≡ spec.left standing.old }
{
    if standing.made.names.depth() > 0 {
        standing.made.names.leave();
    }
}

/// The innermost `switch` ends.
pub(crate) fn leave_switch(standing: &mut Standing)
    ensures { standing.new ≡ spec.out_of_switch standing.old }
{
    standing.switches.leave();
}
