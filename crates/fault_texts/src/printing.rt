// The text of a fault.
ghost use Rattle.std.specs.Prelude.{◌≡◌, ◌++◌, string_bytes, map, codes, IfOk, OnOk, option_map};
ghost use Rattle.fault_texts.specs.Messages;
ghost use Rattle.fault_texts.specs.Printed as spec;

use crate::messages::{behind_of, between, front_of};
use shared_text::Name;
use std::alloc::{AllocError, Global};
use type_data::{CType, Fault, Qual, Tags};
use type_print::print;

fn push_shown(alloc: Global, out: &mut String, ty: &CType, tags: &Tags) -> Result<(), AllocError>
    ensures { OnOk result (string_bytes out.new ≡ string_bytes out.old ++ spec.shown tags.now ty.now) }
{
    let unqualified = Qual {
        is_const: false,
        is_restrict: false,
        is_volatile: false,
    };
    let text = print(alloc, ty, unqualified, "", tags)?;
    out.push_str(text.as_str())
}

fn push_types(
    alloc: Global,
    out: &mut String,
    types: &[CType],
    between: &str,
    tags: &Tags,
) -> Result<(), AllocError>
    ensures { OnOk result (string_bytes out.new ≡ string_bytes out.old ++ spec.joined between.now (map (spec.shown tags.now) types.now)) }
{
    let Some((first, mut rest)) = types.split_first() else {
        return Ok(());
    };
    push_shown(alloc, out, first, tags)?;
    'turn: while let Some((ty, behind)) = rest.split_first() {
        rest = behind;
        out.push_str(between)?;
        push_shown(alloc, out, ty, tags)?;
    }
    Ok(())
}

fn push_names(out: &mut String, names: &[Name]) -> Result<(), AllocError>
    ensures { OnOk result (string_bytes out.new ≡ string_bytes out.old ++ spec.joined (codes " ") names.now) }
{
    let Some((first, mut rest)) = names.split_first() else {
        return Ok(());
    };
    out.push_str(first.as_str())?;
    'turn: while let Some((name, behind)) = rest.split_first() {
        rest = behind;
        out.push_str(" ")?;
        out.push_str(name.as_str())?;
    }
    Ok(())
}

fn push_named(out: &mut String, behind: Option<&str>, names: &[Name]) -> Result<(), AllocError>
    ensures { OnOk result (string_bytes out.new ≡ string_bytes out.old ++ spec.named (option_map (λ text. text.now) behind.entry) names.now) }
{
    let Some(behind) = behind else {
        return Ok(());
    };
    push_names(out, names)?;
    out.push_str(behind)
}

/// The message of a fault of rules 301 to 703, by its rule: a rule that prints a name has the fault's names in their place,
/// with a blank between each two, and one that prints types has these behind, as `print` of `type_print` gives them without
/// qualifiers of their own. `tags` has the tags that the types name. It fails for want of memory alone.
pub fn message(alloc: Global, fault: &Fault, tags: &Tags) -> Result<Name, AllocError>
    ensures { IfOk result (λ name. name ≡ spec.message tags.now fault.now) }
{
    let mut out = String::new(alloc);
    out.push_str(front_of(fault.rule))?;
    push_named(&mut out, behind_of(fault.rule), fault.names.as_slice())?;
    push_types(
        alloc,
        &mut out,
        fault.types.as_slice(),
        between(fault.rule),
        tags,
    )?;
    Name::from_str(alloc, out.as_str())
}
