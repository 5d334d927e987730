// Where the tokens that trees number stand in their item.
ghost use Rattle.std.specs.Prelude.{◌≡◌, IfOk};
ghost use Rattle.elab_state.specs.Contexts as spec;
ghost use Rattle.elab_state.specs.Seen.{context_of};

use crate::around::Around;
use crate::tokens::token;
use std::alloc::AllocError;
use tok_data::TokId;
use type_data::{ItemName, TagId};

/// The number in the item of what trees number `at`. An item with more tokens than a `u32` counts fits no machine that this runs on: it
/// is refused for want of memory.
pub fn number(around: &Around<'_>, at: u32) -> Result<u32, AllocError>
    ensures { IfOk result (λ n. n ≡ spec.number (context_of around.now) at) }
{
    match around.base.checked_add(at) {
        Some(number) => Ok(number),
        None => Err(AllocError),
    }
}

/// The token of the item that trees number `at`.
pub fn own_token(around: &Around<'_>, at: u32) -> Result<TokId, AllocError>
    ensures { IfOk result (λ tok. tok ≡ spec.own_token (context_of around.now) at) }
{
    let number = number(around, at)?;
    token(around.file, number)
}

/// The tag that the item declares at the token that trees number `at`.
pub fn own_tag(around: &Around<'_>, at: u32) -> Result<TagId, AllocError>
    ensures { IfOk result (λ id. id ≡ spec.own_tag (context_of around.now) at) }
{
    let number = number(around, at)?;
    let label = around.item.label.share()?;
    Ok(TagId {
        item: ItemName {
            label,
            nth: around.item.nth,
        },
        at: number,
    })
}
