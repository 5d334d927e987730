// The faults of a unit as they are shown.
ghost use Rattle.std.specs.Prelude.{◌≡◌, ◌++◌, map, IfOk, OnOk};
ghost use Rattle.unit_meaning.specs.Faults as spec;
ghost use Rattle.unit_meaning.specs.Seen.{showing_of};

use crate::order::{part_bodies, part_heads};
use crate::sites::fallen_in;
use fault_texts::message;
use scope_tables::{BodyMeaning, HeadMeaning};
use std::alloc::{AllocError, Global};
use tok_data::{FileId, ShownFault, TokId};
use type_data::{Fault, ItemName, Tags};
use unit_items::{Item, Sources};

/// What a fault is shown by: the unit's tokens, the library texts that were reached, and the tags that types name.
#[derive(Clone, Copy, Drop)]
pub(crate) struct Showing<'a> {
    pub(crate) sources: &'a Sources<'a>,
    pub(crate) reached: &'a [(FileId, TokId)],
    pub(crate) tags: &'a Tags,
}

fn shown(
    alloc: Global,
    showing: &Showing<'_>,
    item: &ItemName,
    fault: &Fault,
) -> Result<ShownFault, AllocError>
    ensures { IfOk result (λ r. r ≡ spec.shown (showing_of showing.now) item.now fault.now) }
{
    let tok = fallen_in(alloc, showing.sources, showing.reached, item, fault.at)?;
    let text = message(alloc, fault, showing.tags)?;
    Ok(ShownFault {
        tok,
        rule: fault.rule,
        text,
    })
}

fn add_all(
    alloc: Global,
    out: &mut Vec<ShownFault>,
    showing: &Showing<'_>,
    item: &ItemName,
    faults: &[Fault],
) -> Result<(), AllocError>
    ensures { OnOk result (out.new.items ≡ out.old.items ++ map (spec.shown (showing_of showing.now) item.now) faults.now) }
{
    let mut rest = faults;
    'faults: while let Some((fault, behind)) = rest.split_first() {
        rest = behind;
        let one = shown(alloc, showing, item, fault)?;
        out.push(one)?;
    }
    Ok(())
}

fn add_heads(
    alloc: Global,
    out: &mut Vec<ShownFault>,
    showing: &Showing<'_>,
    heads: &[HeadMeaning],
) -> Result<(), AllocError>
    ensures { OnOk result (out.new.items ≡ out.old.items ++ spec.of_heads (showing_of showing.now) heads.now) }
{
    let mut rest = heads;
    'heads: while let Some((head, behind)) = rest.split_first() {
        rest = behind;
        add_all(alloc, out, showing, &head.item, head.faults.as_slice())?;
    }
    Ok(())
}

fn add_bodies(
    alloc: Global,
    out: &mut Vec<ShownFault>,
    showing: &Showing<'_>,
    bodies: &[BodyMeaning],
) -> Result<(), AllocError>
    ensures { OnOk result (out.new.items ≡ out.old.items ++ spec.of_bodies (showing_of showing.now) bodies.now) }
{
    let mut rest = bodies;
    'bodies: while let Some((body, behind)) = rest.split_first() {
        rest = behind;
        add_all(alloc, out, showing, &body.item, body.faults.as_slice())?;
    }
    Ok(())
}

/// Faults, each of an item, are shown behind others.
pub(crate) fn add_pairs(
    alloc: Global,
    out: &mut Vec<ShownFault>,
    showing: &Showing<'_>,
    pairs: &[(ItemName, Fault)],
) -> Result<(), AllocError>
    ensures { OnOk result (out.new.items ≡ out.old.items ++ spec.of_pairs (showing_of showing.now) pairs.now) }
{
    let mut rest = pairs;
    'pairs: while let Some((pair, behind)) = rest.split_first() {
        rest = behind;
        let one = shown(alloc, showing, &pair.0, &pair.1)?;
        out.push(one)?;
    }
    Ok(())
}

/// The faults of the items of a unit, items after items.
pub(crate) fn of_items(
    alloc: Global,
    showing: &Showing<'_>,
    items: &[Item],
    heads: &[HeadMeaning],
    bodies: &[BodyMeaning],
) -> Result<Vec<ShownFault>, AllocError>
    ensures { IfOk result (λ out. out.items ≡ spec.of_items (showing_of showing.now) items.now heads.now bodies.now) }
{
    let mut out = Vec::new(alloc);
    let mut later_heads = heads;
    let mut later_bodies = bodies;
    let mut rest = items;
    'items: while let Some((item, behind)) = rest.split_first() {
        rest = behind;
        let (own_heads, behind_heads) = part_heads(later_heads, &item.name);
        later_heads = behind_heads;
        add_heads(alloc, &mut out, showing, own_heads)?;
        let (own_bodies, behind_bodies) = part_bodies(later_bodies, &item.name);
        later_bodies = behind_bodies;
        add_bodies(alloc, &mut out, showing, own_bodies)?;
    }
    Ok(out)
}
