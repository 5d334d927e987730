// A name is bound in the innermost scope (ISO C11 6.2.1).
ghost use Rattle.std.specs.Prelude.{◌≡◌, OnOk};
ghost use Rattle.elab_state.specs.Binds as spec;

use crate::made::Made;
use crate::sharing::share_binding;
use scope_tables::Binding;
use std::alloc::{AllocError, Global};

// What is bound in the outermost scope is what is declared round the part.
fn note(alloc: Global, made: &mut Made, binding: &Binding) -> Result<(), AllocError>
    ensures { OnOk result (made.new ≡ spec.noted binding.now made.old) }
{
    if made.names.depth() == 1 {
        let copy = share_binding(alloc, binding)?;
        made.declared.push(copy)?;
    }
    Ok(())
}

pub(crate) fn put(made: &mut Made, binding: Binding) -> Result<(), AllocError>
    ensures { OnOk result (made.new ≡ spec.put binding made.old) }
{
    if made.names.depth() > 0 {
        made.names
            .declare(binding.space, binding.name, binding.entity)?;
    }
    Ok(())
}

/// Binds a name in the innermost scope, in place of what it denotes there. What is bound in the outermost one is noted as declared.
pub fn bind(alloc: Global, made: &mut Made, binding: Binding) -> Result<(), AllocError>
    ensures { OnOk result (made.new ≡ spec.bound binding made.old) }
{
    note(alloc, made, &binding)?;
    put(made, binding)
}
