// What was found in a body, as its meaning lists it.
ghost use Rattle.std.specs.Prelude.{◌≡◌, [], map, IfOk};
ghost use Rattle.elab_state.specs.Seen.{context_of};
ghost use Rattle.stmt_checks.specs.Meanings as spec;

use elab_state::{Around, Grown, Made, fault_at, number};
use meaning_lists::{Found, body_meaning};
use scope_tables::{BodyMeaning, ScopeKind};
use shared_list::Listing;
use std::alloc::{AllocError, Global};
use std::mem;
use type_data::{Fault, ItemName, Tags};

pub(crate) fn none<T>(alloc: Global) -> Listing<T>
    ensures { result ≡ [] }
{
    Listing::from_vec(Vec::new(alloc))
}

// (What items mean is kept for long: no list keeps more room than it has values.)
pub(crate) fn taken<T: Drop>(alloc: Global, list: &mut Grown<T>) -> Listing<T>
    ensures { result ≡ list.old }
{
    let grown = mem::replace(list, Grown::new(alloc));
    let mut items = grown.into_listing().into_vec();
    items.shrink_to_fit();
    Listing::from_vec(items)
}

fn renumbered(around: &Around<'_>, fault: Fault) -> Result<Fault, AllocError>
    ensures { IfOk result (λ f. f ≡ spec.renumbered (context_of around.now) fault) }
{
    let at = number(around, fault.at)?;
    Ok(Fault {
        rule: fault.rule,
        at,
        names: fault.names,
        types: fault.types,
    })
}

fn all_renumbered(
    alloc: Global,
    around: &Around<'_>,
    faults: Vec<Fault>,
) -> Result<Listing<Fault>, AllocError>
    ensures { IfOk result (λ l. l ≡ map (spec.renumbered (context_of around.now)) faults.items) }
{
    let mut out = Vec::new(alloc);
    'faults: for fault in faults {
        let fault = renumbered(around, fault)?;
        out.push(fault)?;
    }
    Ok(Listing::from_vec(out))
}

fn found(alloc: Global, around: &Around<'_>, made: &mut Made) -> Result<Found, AllocError>
    ensures { IfOk result (λ f. f ≡ spec.found (context_of around.now) made.old) }
{
    let faults = taken(alloc, &mut made.faults);
    let faults = all_renumbered(alloc, around, faults.into_vec())?;
    Ok(Found {
        declared: none(alloc),
        params: none(alloc),
        entities: taken(alloc, &mut made.entities),
        occs: taken(alloc, &mut made.occs),
        faults,
        used: taken(alloc, &mut made.used),
        stated: none(alloc),
        symbols: none(alloc),
        inline: false,
    })
}

pub(crate) fn share_item(item: &ItemName) -> Result<ItemName, AllocError>
    ensures { IfOk result (λ copy. copy ≡ item.now) }
{
    let label = item.label.share()?;
    Ok(ItemName {
        label,
        nth: item.nth,
    })
}

/// What a body means in which so much was made; its lists are taken.
pub(crate) fn meaning(
    alloc: Global,
    around: &Around<'_>,
    made: &mut Made,
) -> Result<BodyMeaning, AllocError>
    ensures { IfOk result (λ m. m ≡ spec.meaning (context_of around.now) made.old) }
{
    let item = share_item(around.item)?;
    let mut found = found(alloc, around, made)?;
    match body_meaning(alloc, item, &mut found) {
        Ok(meaning) => {
            drop(found);
            Ok(meaning)
        }
        Err(error) => {
            drop(found);
            Err(error)
        }
    }
}

/// What a body means that isn't read: this rule, at this token of it.
pub(crate) fn refusal(
    alloc: Global,
    around: &Around<'_>,
    rule: u16,
    at: u32,
) -> Result<BodyMeaning, AllocError>
    ensures { IfOk result (λ m. m ≡ spec.refusal (context_of around.now) rule at) }
{
    let mut made = Made::begin(alloc, ScopeKind::File, Tags::new(alloc))?;
    let Ok(()) = made.faults.push(fault_at(alloc, rule, at)) else {
        drop(made);
        return Err(AllocError);
    };
    match meaning(alloc, around, &mut made) {
        Ok(meaning) => {
            drop(made);
            Ok(meaning)
        }
        Err(error) => {
            drop(made);
            Err(error)
        }
    }
}
