// What a unit means.
ghost use Rattle.std.specs.Prelude.{◌≡◌, map, IfOk};
ghost use Rattle.unit_meaning.specs.Entities.{entities as declared};
ghost use Rattle.unit_meaning.specs.Exports as shown;
ghost use Rattle.unit_meaning.specs.Meanings as spec;
ghost use Rattle.unit_meaning.specs.Occurrences as denoted;
ghost use Rattle.unit_meaning.specs.Seen.{elaborated_of};
ghost use Rattle.unit_meaning.specs.Tags.{tags as known};

use crate::elaborated::Elaborated;
use crate::entities::entities;
use crate::exports::names;
use crate::faults::{Showing, add_pairs, of_items};
use crate::kept::Kept;
use crate::occurrences::{in_items, of_unit};
use crate::sites::all_reached;
use crate::symbols::symbols;
use crate::tags::tags;
use scope_tables::{BodyMeaning, Export, Exports, HeadMeaning, Occ, UnitEntity, UnitMeaning};
use shared_list::Listing;
use std::alloc::{AllocError, Global};
use tok_data::{FileId, OutToken, ShownFault, TokId};
use type_data::Tags;
use unit_ends::end_faults;
use unit_items::{Item, Sources};

// The faults, with the tags of the unit.
#[tactic(auto, unfolding(crate::specs::Meanings::faults))]
fn faults(alloc: Global, unit: &Elaborated<'_>, tags: &Tags) -> Result<Vec<ShownFault>, AllocError>
    requires tags { tags.now ≡ known (elaborated_of unit.now).heads (elaborated_of unit.now).bodies }
    ensures { IfOk result (λ out. out.items ≡ spec.faults (elaborated_of unit.now)) }
{
    let showing = Showing {
        sources: unit.sources,
        reached: unit.reached,
        tags,
    };
    let mut out = of_items(
        alloc,
        &showing,
        unit.sources.items(),
        unit.heads,
        unit.bodies,
    )?;
    let ends = end_faults(alloc, unit.heads, unit.bodies)?;
    add_pairs(alloc, &mut out, &showing, &ends)?;
    Ok(out)
}

// The names that a unit shows to the others.
fn exported(
    alloc: Global,
    unit: &Elaborated<'_>,
    occs: &[&Occ],
    entities: &[UnitEntity],
) -> Result<Vec<Export>, AllocError>
    ensures { IfOk result (λ r. r.items ≡ shown.names (elaborated_of unit.now).unit (elaborated_of unit.now).reached (map (λ o. o.now) occs.now) (elaborated_of unit.now).heads entities.now) }
{
    let kept = Kept::new(alloc, occs, unit.heads)?;
    let names = names(alloc, unit.sources, unit.reached, &kept, entities)?;
    Ok(names)
}

// The entities of a unit, and the names among them that it shows.
#[tactic(auto, unfolding(crate::specs::Meanings::exports))]
fn declarations(
    alloc: Global,
    unit: &Elaborated<'_>,
    occs: &[&Occ],
) -> Result<(Vec<UnitEntity>, Vec<Export>), AllocError>
    requires { map (λ o. o.now) occs.now ≡ denoted.in_items (elaborated_of unit.now).unit.items (elaborated_of unit.now).heads (elaborated_of unit.now).bodies }
    ensures entities { IfOk result (λ r. r.0.items ≡ declared (elaborated_of unit.now).unit (elaborated_of unit.now).heads (elaborated_of unit.now).bodies) }
    ensures names { IfOk result (λ r. r.1.items ≡ (spec.exports (elaborated_of unit.now)).names) }
{
    let entities = entities(
        alloc,
        unit.sources,
        unit.sources.items(),
        unit.heads,
        unit.bodies,
    )?;
    let names = exported(alloc, unit, occs, &entities)?;
    Ok((entities, names))
}

// The occurrences of a unit, its entities, and the names that it shows.
#[tactic(auto, unfolding(crate::specs::Meanings::exports))]
fn denotations(
    alloc: Global,
    unit: &Elaborated<'_>,
) -> Result<(Vec<Occ>, Vec<UnitEntity>, Vec<Export>), AllocError>
    ensures occs { IfOk result (λ r. r.0.items ≡ denoted.of_unit (elaborated_of unit.now).unit (denoted.in_items (elaborated_of unit.now).unit.items (elaborated_of unit.now).heads (elaborated_of unit.now).bodies)) }
    ensures entities { IfOk result (λ r. r.1.items ≡ declared (elaborated_of unit.now).unit (elaborated_of unit.now).heads (elaborated_of unit.now).bodies) }
    ensures names { IfOk result (λ r. r.2.items ≡ (spec.exports (elaborated_of unit.now)).names) }
{
    let told = in_items(alloc, unit.sources.items(), unit.heads, unit.bodies)?;
    let (entities, names) = declarations(alloc, unit, &told)?;
    let occs = of_unit(alloc, unit.sources, &told)?;
    Ok((occs, entities, names))
}

#[tactic(auto, unfolding(crate::specs::Meanings::meant, crate::specs::Meanings::exports))]
fn meant(alloc: Global, unit: &Elaborated<'_>) -> Result<UnitMeaning, AllocError>
    ensures { IfOk result (λ m. m ≡ spec.meant (elaborated_of unit.now)) }
{
    let symbols = symbols(alloc, unit.sources, unit.heads)?;
    let tags = tags(alloc, unit.heads, unit.bodies)?;
    let faults = faults(alloc, unit, &tags)?;
    let (occs, entities, names) = denotations(alloc, unit)?;
    Ok(UnitMeaning {
        faults: Listing::from_vec(faults),
        occs: Listing::from_vec(occs),
        entities: Listing::from_vec(entities),
        symbols: Listing::from_vec(symbols),
        exports: Exports {
            names: Listing::from_vec(names),
            tags,
        },
    })
}

/// What a unit means (ISO C11 5.1.1.1, 6.9), by its output tokens, its items, the texts that it entered, and what its items mean: `heads` and
/// `bodies`, in the order of the items.
///
/// Faults: items after items, of each those of its head and of its body, and then those of the unit's end. A fault falls on
/// the token of a text that led to its output token (6.10.3), and one in a library text on the directive by which the unit reached that.
/// Occurrences: of each item those of the head and of the body, as they stand there. Entities: one for each anchor, in the order of the first
/// ones, and of each the last one of the last item. Symbols: those of the heads; a token that was made is none. Exports: the names among the
/// entities that have external linkage; an array of unknown size that a head defines tentatively has one element (6.9.2p2), and a function
/// that every head states with `inline` and without `extern` isn't defined (6.7.4p7).
///
/// Its cost is linear in the tokens and in what the items mean. It fails for want of memory alone.
pub fn meaning_of(
    alloc: Global,
    tokens: &[OutToken],
    items: &[Item],
    entered: &[(FileId, TokId)],
    heads: &[HeadMeaning],
    bodies: &[BodyMeaning],
) -> Result<UnitMeaning, AllocError>
    ensures { IfOk result (λ m. m ≡ spec.meaning (record { tokens = tokens.now; items = items.now }) entered.now heads.now bodies.now) }
{
    let reached = all_reached(alloc, entered)?;
    let sources = Sources::new(alloc, tokens, items)?;
    let unit = Elaborated {
        sources: &sources,
        reached: &reached,
        heads,
        bodies,
    };
    let meaning = meant(alloc, &unit)?;
    Ok(meaning)
}
