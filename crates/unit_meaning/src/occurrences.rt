// The occurrences of a unit.
ghost use Rattle.std.specs.Prelude.{◌≡◌, ◌++◌, map, IfOk, OnOk};
ghost use Rattle.unit_items.specs.Sources.{occurrence};
ghost use Rattle.unit_meaning.specs.Occurrences as spec;

use crate::order::{part_bodies, part_heads};
use crate::room;
use scope_tables::{BodyMeaning, HeadMeaning, Occ};
use std::alloc::{AllocError, Global};
use unit_items::{Item, Sources};

fn add_all<'a>(out: &mut Vec<&'a Occ>, occs: &'a [Occ]) -> Result<(), AllocError>
    ensures { OnOk result (map (λ o. o.now) out.new.items ≡ map (λ o. o.now) out.old.items ++ occs.now) }
{
    let mut rest = occs;
    'occs: while let Some((occ, behind)) = rest.split_first() {
        rest = behind;
        out.push(occ)?;
    }
    Ok(())
}

fn add_heads<'a>(out: &mut Vec<&'a Occ>, heads: &'a [HeadMeaning]) -> Result<(), AllocError>
    ensures { OnOk result (map (λ o. o.now) out.new.items ≡ map (λ o. o.now) out.old.items ++ spec.in_heads heads.now) }
{
    let mut rest = heads;
    'heads: while let Some((head, behind)) = rest.split_first() {
        rest = behind;
        add_all(out, head.occs.as_slice())?;
    }
    Ok(())
}

fn add_bodies<'a>(out: &mut Vec<&'a Occ>, bodies: &'a [BodyMeaning]) -> Result<(), AllocError>
    ensures { OnOk result (map (λ o. o.now) out.new.items ≡ map (λ o. o.now) out.old.items ++ spec.in_bodies bodies.now) }
{
    let mut rest = bodies;
    'bodies: while let Some((body, behind)) = rest.split_first() {
        rest = behind;
        add_all(out, body.occs.as_slice())?;
    }
    Ok(())
}

/// The occurrences in the items of a unit, as these tell them, in the order of output tokens. They are lent.
pub(crate) fn in_items<'a>(
    alloc: Global,
    items: &[Item],
    heads: &'a [HeadMeaning],
    bodies: &'a [BodyMeaning],
) -> Result<Vec<&'a Occ>, AllocError>
    ensures { IfOk result (λ out. map (λ o. o.now) out.items ≡ spec.in_items items.now heads.now bodies.now) }
{
    let mut out = Vec::with_capacity(alloc, room::of_occs(heads, bodies))?;
    let mut later_heads = heads;
    let mut later_bodies = bodies;
    let mut rest = items;
    'items: while let Some((item, behind)) = rest.split_first() {
        rest = behind;
        let (own_heads, behind_heads) = part_heads(later_heads, &item.name);
        later_heads = behind_heads;
        add_heads(&mut out, own_heads)?;
        let (own_bodies, behind_bodies) = part_bodies(later_bodies, &item.name);
        later_bodies = behind_bodies;
        add_bodies(&mut out, own_bodies)?;
    }
    Ok(out)
}

/// The same as the unit tells them.
pub(crate) fn of_unit(
    alloc: Global,
    sources: &Sources<'_>,
    occs: &[&Occ],
) -> Result<Vec<Occ>, AllocError>
    ensures { IfOk result (λ out. out.items ≡ spec.of_unit sources.now (map (λ o. o.now) occs.now)) }
{
    let mut out = Vec::with_capacity(alloc, occs.len())?;
    'occs: for occ in occs {
        let occ = sources.occurrence(occ)?;
        out.push(occ)?;
    }
    Ok(out)
}
