// Copies of bindings, which share names and types.
ghost use Rattle.std.specs.Prelude.{◌≡◌, IfOk};

use scope_tables::Binding;
use std::alloc::{AllocError, Global};
use type_data::Space;

pub(crate) fn share_space(space: &Space) -> Result<Space, AllocError>
    ensures { IfOk result (λ copy. copy ≡ space.now) }
{
    match space {
        Space::Labels => Ok(Space::Labels),
        Space::Tags => Ok(Space::Tags),
        Space::Members(id) => {
            let id = id.share()?;
            Ok(Space::Members(id))
        }
        Space::Ordinary => Ok(Space::Ordinary),
    }
}

/// The same binding, whose texts and types and a tag's members are shared. It takes no memory, but may be refused where one of
/// them is shared 2^64 times.
pub fn share_binding(alloc: Global, binding: &Binding) -> Result<Binding, AllocError>
    ensures { IfOk result (λ copy. copy ≡ binding.now) }
{
    let space = share_space(&binding.space)?;
    let name = binding.name.share()?;
    let entity = binding.entity.share(alloc)?;
    Ok(Binding {
        space,
        name,
        entity,
    })
}
