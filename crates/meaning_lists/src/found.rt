// What a head or a body found, and its meaning.
ghost use Rattle.std.specs.Prelude.{◌≡◌, IfOk, OnOk};
ghost use Rattle.meaning_lists.specs.Filling as filling;
ghost use Rattle.meaning_lists.specs.Found as spec;

use crate::bindings::last_bindings;
use crate::entities::last_entities;
use crate::firsts::{
    Firsts, bindings_ascend, entities_ascend, first_places, occs_ascend, placed_bindings,
    placed_entities, placed_faults, placed_occs, placed_symbols,
};
use crate::names::{defined, once};
use crate::order::by_place;
use scope_tables::{Binding, BodyMeaning, Entities, Entity, HeadMeaning, HeadSymbol, Occ, Stated};
use shared_list::Listing;
use shared_text::Name;
use std::alloc::{AllocError, Global};
use std::mem;
use type_data::{Fault, ItemName};

/// What was found in an item's head or body, in the order in which it was.
#[derive(Drop)]
pub struct Found {
    /// What it binds in the scope round it, each time that a name is bound.
    pub declared: Listing<Binding>,
    /// What the parameter list of a function definition binds, likewise.
    pub params: Listing<Binding>,
    /// The entities that it declares, each time that one is declared or completed.
    pub entities: Listing<Entity>,
    pub occs: Listing<Occ>,
    pub faults: Listing<Fault>,
    /// The names with internal linkage that it uses, as often as they are.
    pub used: Listing<Name>,
    /// What it states at file scope, a declarator after the other.
    pub stated: Listing<Stated>,
    /// The tokens of a head that define or declare a name at file scope.
    pub symbols: Listing<HeadSymbol>,
    /// The head's specifiers have `inline`, and no `extern`.
    pub inline: bool,
}

fn none<T>(alloc: Global) -> Listing<T>
    ensures { result ≡ filling.none_of }
{
    Listing::from_vec(Vec::new(alloc))
}

#[tactic(auto, unfolding(crate::specs::Found::occs_in_order))]
fn occs_in_order(alloc: Global, occs: Listing<Occ>) -> Result<Listing<Occ>, AllocError>
    ensures { IfOk result (λ l. l ≡ spec.occs_in_order occs) }
{
    if occs_ascend(occs.as_slice()) {
        return Ok(occs);
    }
    let placed = placed_occs(alloc, occs.into_vec())?;
    let occs = by_place(alloc, placed)?;
    Ok(Listing::from_vec(occs))
}

#[tactic(auto, unfolding(crate::specs::Found::faults_in_order))]
fn faults_in_order(alloc: Global, faults: Listing<Fault>) -> Result<Listing<Fault>, AllocError>
    ensures { IfOk result (λ l. l ≡ spec.faults_in_order faults) }
{
    let placed = placed_faults(alloc, faults.into_vec())?;
    let faults = by_place(alloc, placed)?;
    Ok(Listing::from_vec(faults))
}

#[tactic(auto, unfolding(crate::specs::Found::symbols_in_order))]
fn symbols_in_order(
    alloc: Global,
    symbols: Listing<HeadSymbol>,
) -> Result<Listing<HeadSymbol>, AllocError>
    ensures { IfOk result (λ l. l ≡ spec.symbols_in_order symbols) }
{
    let placed = placed_symbols(alloc, symbols.into_vec())?;
    let symbols = by_place(alloc, placed)?;
    Ok(Listing::from_vec(symbols))
}

#[tactic(auto, unfolding(crate::specs::Found::entities_in_order))]
fn entities_in_order(
    alloc: Global,
    firsts: &Firsts,
    entities: Listing<Entity>,
) -> Result<Entities, AllocError>
    ensures { IfOk result (λ l. l ≡ spec.entities_in_order firsts.now entities) }
{
    let last = last_entities(alloc, entities.into_vec())?;
    if entities_ascend(firsts, last.as_slice()) {
        return Entities::from_vec(alloc, last);
    }
    let placed = placed_entities(alloc, firsts, last)?;
    let entities = by_place(alloc, placed)?;
    Entities::from_vec(alloc, entities)
}

#[tactic(auto, unfolding(crate::specs::Found::bindings_in_order))]
fn bindings_in_order(
    alloc: Global,
    firsts: &Firsts,
    bindings: Listing<Binding>,
) -> Result<Listing<Binding>, AllocError>
    ensures { IfOk result (λ l. l ≡ spec.bindings_in_order firsts.now bindings) }
{
    let last = last_bindings(alloc, bindings.into_vec())?;
    if bindings_ascend(firsts, last.as_slice()) {
        return Ok(Listing::from_vec(last));
    }
    let placed = placed_bindings(alloc, firsts, last)?;
    let bindings = by_place(alloc, placed)?;
    Ok(Listing::from_vec(bindings))
}

#[tactic(auto, unfolding(crate::specs::Found::each_once))]
fn each_once(alloc: Global, names: Listing<Name>) -> Result<Listing<Name>, AllocError>
    ensures { IfOk result (λ l. l ≡ spec.each_once names) }
{
    let names = once(alloc, names.into_vec())?;
    Ok(Listing::from_vec(names))
}

#[tactic(auto, unfolding(crate::specs::Found::definitions))]
fn definitions(alloc: Global, stated: &Listing<Stated>) -> Result<Listing<Name>, AllocError>
    ensures { IfOk result (λ l. l ≡ spec.definitions stated.now) }
{
    let names = defined(alloc, stated.as_slice())?;
    Ok(Listing::from_vec(names))
}

fn empty_head(alloc: Global, item: ItemName) -> HeadMeaning
    ensures { result ≡ filling.empty_head item }
{
    HeadMeaning {
        item,
        declared: none(alloc),
        params: none(alloc),
        entities: Entities::none(),
        occs: none(alloc),
        faults: none(alloc),
        defines: none(alloc),
        used: none(alloc),
        stated: none(alloc),
        symbols: none(alloc),
        inline: false,
    }
}

// What names denote and what entities are at the end, in the order of first tokens.
fn place_head(
    alloc: Global,
    meaning: &mut HeadMeaning,
    firsts: &Firsts,
    found: &mut Found,
) -> Result<(), AllocError>
    ensures meaning { OnOk result (meaning.new ≡ filling.with_places firsts.now found.old meaning.old) }
    ensures rest { OnOk result (found.new ≡ filling.without_names found.old) }
{
    let declared = mem::replace(&mut found.declared, none(alloc));
    meaning.declared = bindings_in_order(alloc, firsts, declared)?;
    let params = mem::replace(&mut found.params, none(alloc));
    meaning.params = bindings_in_order(alloc, firsts, params)?;
    let entities = mem::replace(&mut found.entities, none(alloc));
    meaning.entities = entities_in_order(alloc, firsts, entities)?;
    Ok(())
}

fn list_head(alloc: Global, meaning: &mut HeadMeaning, found: &mut Found) -> Result<(), AllocError>
    ensures { OnOk result (meaning.new ≡ filling.with_lists found.old meaning.old) }
{
    let faults = mem::replace(&mut found.faults, none(alloc));
    meaning.faults = faults_in_order(alloc, faults)?;
    meaning.defines = definitions(alloc, &found.stated)?;
    let used = mem::replace(&mut found.used, none(alloc));
    meaning.used = each_once(alloc, used)?;
    meaning.stated = mem::replace(&mut found.stated, none(alloc));
    let symbols = mem::replace(&mut found.symbols, none(alloc));
    meaning.symbols = symbols_in_order(alloc, symbols)?;
    meaning.inline = found.inline;
    Ok(())
}

fn fill_head(alloc: Global, meaning: &mut HeadMeaning, found: &mut Found) -> Result<(), AllocError>
    ensures { OnOk result (meaning.new ≡ filling.filled_head found.old meaning.old) }
{
    let occs = mem::replace(&mut found.occs, none(alloc));
    meaning.occs = occs_in_order(alloc, occs)?;
    let firsts = first_places(alloc, meaning.occs.as_slice())?;
    place_head(alloc, meaning, &firsts, found)?;
    list_head(alloc, meaning, found)
}

/// What the head of this item means, in which so much was found: what names denote and what entities are is what they are at the end, and
/// each list is in the order of first tokens. What was found is taken. Its cost is that of a sort.
pub fn head_meaning(
    alloc: Global,
    item: ItemName,
    found: &mut Found,
) -> Result<HeadMeaning, AllocError>
    ensures { IfOk result (λ m. m ≡ spec.head_of item found.old) }
{
    let mut meaning = empty_head(alloc, item);
    match fill_head(alloc, &mut meaning, found) {
        Ok(()) => Ok(meaning),
        Err(error) => Err(error),
    }
}

fn empty_body(alloc: Global, item: ItemName) -> BodyMeaning
    ensures { result ≡ filling.empty_body item }
{
    BodyMeaning {
        item,
        entities: Entities::none(),
        occs: none(alloc),
        faults: none(alloc),
        used: none(alloc),
    }
}

fn fill_body(alloc: Global, meaning: &mut BodyMeaning, found: &mut Found) -> Result<(), AllocError>
    ensures { OnOk result (meaning.new ≡ filling.filled_body found.old meaning.old) }
{
    let occs = mem::replace(&mut found.occs, none(alloc));
    meaning.occs = occs_in_order(alloc, occs)?;
    let firsts = first_places(alloc, meaning.occs.as_slice())?;
    let entities = mem::replace(&mut found.entities, none(alloc));
    meaning.entities = entities_in_order(alloc, &firsts, entities)?;
    let faults = mem::replace(&mut found.faults, none(alloc));
    meaning.faults = faults_in_order(alloc, faults)?;
    let used = mem::replace(&mut found.used, none(alloc));
    meaning.used = each_once(alloc, used)?;
    Ok(())
}

/// What the body of this item means, in which so much was found, likewise.
pub fn body_meaning(
    alloc: Global,
    item: ItemName,
    found: &mut Found,
) -> Result<BodyMeaning, AllocError>
    ensures { IfOk result (λ m. m ≡ spec.body_of item found.old) }
{
    let mut meaning = empty_body(alloc, item);
    match fill_body(alloc, &mut meaning, found) {
        Ok(()) => Ok(meaning),
        Err(error) => Err(error),
    }
}
