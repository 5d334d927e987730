// The items of a unit, by name.
ghost use Rattle.std.specs.Prelude.{◌≡◌, ◌≤◌, ◌+◌, ℕ, List, [], length, bytes_eq, if◌then◌else◌, IfOk, OnOk};
ghost use Rattle.unit_items.specs.Items as spec;
ghost use Rattle.unit_items.specs.Maps.{counted};

use crate::items::Item;
use item_cut::{cut, label};
use shared_text::Name;
use std::alloc::{AllocError, Global};
use std::collections::HashMap;
use tok_data::OutToken;
use type_data::ItemName;

#[tactic(auto, unfolding(crate::specs::Maps::counted))]
fn no_labels(alloc: Global) -> HashMap<Name, u32>
    ensures { (text : List ℕ) → counted result text ≡ 0 }
{
    HashMap::new(alloc)
}

#[tactic(auto, unfolding(crate::specs::Maps::counted))]
fn times(labels: &HashMap<Name, u32>, text: &Name) -> u32
    ensures { result ≡ counted labels.now text.now }
{
    match labels.get(text) {
        Some(times) => *times,
        None => 0,
    }
}

// Counts a label once more.
#[tactic(auto, unfolding(crate::specs::Maps::counted))]
fn count(labels: &mut HashMap<Name, u32>, text: &Name, times: u32) -> Result<(), AllocError>
    requires told { times ≡ counted labels.now text.now }
    ensures { OnOk result ((t : List ℕ) → counted labels.new t ≡ (if bytes_eq text.now t then counted labels.old t + 1 else counted labels.old t)) }
{
    let Some(more) = times.checked_add(1) else {
        return Err(AllocError);
    };
    let key = text.share()?;
    labels.insert(key, more).map_err(AllocError::from)?;
    Ok(())
}

/// The items of a unit (ISO C11 6.9), in order, each with its name: its label, and the number of earlier items with that label.
/// A unit that is cut has at most 2,000,000 tokens. Its cost is linear in these. It fails for want of memory alone.
pub fn items_of(alloc: Global, tokens: &[OutToken]) -> Result<Vec<Item>, AllocError>
    requires { length tokens.now ≤ 2000000 }
    ensures { IfOk result (λ items. items.items ≡ spec.items_of tokens.now) }
{
    let places = cut(alloc, tokens)?;
    named(alloc, tokens, &places)
}

fn item(
    labels: &mut HashMap<Name, u32>,
    text: Name,
    start: u32,
    end: u32,
) -> Result<Item, AllocError>
    ensures item { IfOk result (λ item. (seen : List (List ℕ)) → ((t : List ℕ) → counted labels.old t ≡ spec.times t seen) → item ≡ spec.item text seen start end) }
    ensures counted { OnOk result ((t : List ℕ) → counted labels.new t ≡ (if bytes_eq text t then counted labels.old t + 1 else counted labels.old t)) }
{
    let nth = times(labels, &text);
    count(labels, &text, nth)?;
    let name = ItemName { label: text, nth };
    Ok(Item { name, start, end })
}

fn named(alloc: Global, tokens: &[OutToken], places: &[(u32, u32)]) -> Result<Vec<Item>, AllocError>
    ensures { IfOk result (λ items. items.items ≡ spec.named tokens.now [] places.now) }
{
    let mut out = Vec::new(alloc);
    let mut labels = no_labels(alloc);
    let mut left = tokens;
    let mut rest = places;
    'turn: while let Some((place, behind)) = rest.split_first() {
        rest = behind;
        let (start, end) = *place;
        let Some((front, back)) = left.split_at_checked(end.saturating_sub(start) as usize) else {
            return Err(AllocError);
        };
        left = back;
        let text = label(alloc, front)?;
        let next = item(&mut labels, text, start, end)?;
        out.push(next)?;
    }
    Ok(out)
}
