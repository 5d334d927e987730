// Static assertions (ISO C11 6.7.10).
ghost use Rattle.std.specs.Prelude.{◌≡◌, OnOk};
ghost use Rattle.elab_core.specs.Assertions as spec;
ghost use Rattle.elab_core.specs.Constants;
ghost use Rattle.elab_state.specs.Seen.{context_of};

use crate::constants::{needed, spellings};
use crate::notes::note;
use elab_state::{Around, Made};
use head_rules::assertion;
use std::alloc::{AllocError, Global};
use type_data::{Judged, Value};

fn assert_by(
    alloc: Global,
    around: &Around<'_>,
    made: &mut Made,
    keyword: u32,
    pieces: &[u32],
    value: Option<Value>,
) -> Result<(), AllocError>
    ensures { OnOk result (made.new ≡ spec.asserted_by (context_of around.now) keyword pieces.now (Constants.as_needed value) made.old) }
{
    let Some(value) = value else {
        return Ok(());
    };
    let names = spellings(alloc, around.tokens, pieces)?;
    let fault = assertion(alloc, keyword, names.as_slice(), Some(value))?;
    note(made, fault)
}

/// A static assertion whose condition begins with the token `begins` and is judged so. Its fault is noted: 530 and 531 where the
/// condition is no integer constant expression, 429 where it is 0.
pub fn assert_judged(
    alloc: Global,
    around: &Around<'_>,
    made: &mut Made,
    keyword: u32,
    pieces: &[u32],
    begins: u32,
    condition: &Judged,
) -> Result<(), AllocError>
    ensures { OnOk result (made.new ≡ spec.asserted (context_of around.now) keyword pieces.now begins condition.now made.old) }
{
    let value = needed(alloc, made, begins, condition)?;
    assert_by(alloc, around, made, keyword, pieces, value)
}
