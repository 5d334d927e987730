// What the rows of heads tell is noted, and what a token of a head declares (ISO C11 6.2.1p7).
ghost use Rattle.std.specs.Prelude.{◌≡◌, IfOk, OnOk};
ghost use Rattle.elab_core.specs.Constants;
ghost use Rattle.elab_core.specs.Notes as spec;
ghost use Rattle.elab_state.specs.Seen.{context_of};

use elab_state::{Around, Made, mark, name_at, own_tag, own_token};
use head_rules::{Constant, NameToken};
use scope_tables::{Anchor, Role};
use std::alloc::{AllocError, Global};
use type_data::{Fault, Value};

pub(crate) fn note(made: &mut Made, fault: Option<Fault>) -> Result<(), AllocError>
    ensures { OnOk result (made.new ≡ spec.noted fault made.old) }
{
    match fault {
        Some(fault) => {
            made.faults.push(fault)?;
            Ok(())
        }
        None => Ok(()),
    }
}

pub(crate) fn renumbered(around: &Around<'_>, fault: Fault) -> Fault
    ensures { result ≡ spec.renumbered (context_of around.now) fault }
{
    Fault {
        rule: fault.rule,
        at: fault.at.saturating_sub(around.base),
        names: fault.names,
        types: fault.types,
    }
}

/// Notes a fault whose token is told by its number in the item.
pub(crate) fn note_by_name(
    around: &Around<'_>,
    made: &mut Made,
    fault: Option<Fault>,
) -> Result<(), AllocError>
    ensures { OnOk result (made.new ≡ spec.noted_by_name (context_of around.now) fault made.old) }
{
    match fault {
        Some(fault) => {
            made.faults.push(renumbered(around, fault))?;
            Ok(())
        }
        None => Ok(()),
    }
}

pub(crate) fn name_token(
    alloc: Global,
    around: &Around<'_>,
    at: u32,
) -> Result<NameToken, AllocError>
    ensures { IfOk result (λ n. n ≡ spec.name_token (context_of around.now) at) }
{
    let name = name_at(alloc, around.tokens, at)?;
    let id = own_tag(around, at)?;
    let tok = own_token(around, at)?;
    Ok(NameToken { name, id, tok })
}

pub(crate) fn named_token(
    alloc: Global,
    around: &Around<'_>,
    own: Option<u32>,
) -> Result<Option<NameToken>, AllocError>
    ensures { IfOk result (λ n. n ≡ spec.named_token (context_of around.now) own) }
{
    match own {
        Some(at) => {
            let name = name_token(alloc, around, at)?;
            Ok(Some(name))
        }
        None => Ok(None),
    }
}

pub(crate) fn constant_of(value: Option<Value>) -> Constant
    ensures { result ≡ spec.constant_of (Constants.as_needed value) }
{
    match value {
        Some(value) => Constant::Is(value),
        None => Constant::Faulty,
    }
}

pub(crate) fn mark_if(
    around: &Around<'_>,
    made: &mut Made,
    at: u32,
    role: Role,
    anchor: &Option<Anchor>,
) -> Result<(), AllocError>
    ensures { OnOk result (made.new ≡ spec.marked (context_of around.now) at role anchor.now made.old) }
{
    match anchor {
        Some(anchor) => mark(around, made, at, anchor, role),
        None => Ok(()),
    }
}
