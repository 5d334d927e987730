// What some items in front of others say of their names and of tags, beside what other items say (ISO C11 6.2.1p4, p7).
ghost use Rattle.std.specs.Prelude.{◌≡◌, ◌||◌, true, false, Some, option_map, if◌then◌else◌, IfOk, IsTrue, OnOk};
ghost use Rattle.elab_state.specs.Same.{same_wanted};
ghost use Rattle.elab_state.specs.Tokens.{bare_tokens};
ghost use Rattle.elab_state.specs.Wants.{answered};
ghost use Rattle.elab_state.specs.declared.wants.Wanted.{Wanted as Question};
ghost use Rattle.earlier_items.specs.Before.{said};
ghost use Rattle.scope_tables.specs.Scopes.{or_outside};
ghost use Rattle.earlier_items.specs.Differences as spec;
ghost use Rattle.earlier_items.specs.Differences.{Asks, IsAmong, has_question};

use crate::adding::{put, said_of};
use crate::earlier::Earlier;
use elab_state::{Known, Wanted, unanswered};
use scope_tables::Entity;
use shared_list::Listing;
use std::alloc::{AllocError, Global};
use std::collections::HashSet;
use tok_data::OutToken;

/// Names that items in front of others don't leave as they were.
#[derive(Drop)]
pub struct Changed {
    names: HashSet<Wanted>,
}

/// Whether all is the same that is said of them.
#[tactic(auto, using(crate::proofs::Entities::same_entity))]
pub(crate) fn same_entity(one: &Entity, other: &Entity) -> bool
    ensures { IsTrue result → one.now ≡ other.now }
{
    *one == *other
}

fn same_answer(one: Option<&Entity>, other: Option<&Entity>) -> bool
    ensures { IsTrue result → option_map (λ e. e.now) one.entry ≡ option_map (λ e. e.now) other.entry }
{
    match one {
        Some(entity) => match other {
            Some(more) => same_entity(entity, more),
            None => false,
        },
        None => other.is_none(),
    }
}

// What the identifiers of these tokens ask, each once.
#[tactic(auto, using(crate::proofs::Asking::asked_all))]
fn asked_by(alloc: Global, tokens: &[OutToken]) -> Result<Listing<Wanted>, AllocError>
    ensures { IfOk result (λ list. (q : Question) → Asks (bare_tokens tokens.now) q → IsAmong list q) }
{
    let nothing = Known::new(alloc);
    unanswered(alloc, &nothing, tokens)
}

impl Changed {
    /// All are as they were. It takes no memory.
    #[tactic(auto, unfolding(crate::specs::Differences::has_question))]
    pub fn none(alloc: Global) -> Changed
        ensures { (q : Question) → has_question result q ≡ false }
    {
        Changed {
            names: HashSet::new(alloc),
        }
    }

    #[tactic(auto, unfolding(crate::specs::Differences::has_question))]
    fn note(&mut self, one: &Wanted) -> Result<(), AllocError>
        ensures { OnOk result ((q : Question) → has_question self.new q ≡ has_question self.old q || same_wanted one.now q) }
    {
        let one = one.share()?;
        self.names.insert(one).map_err(AllocError::from)?;
        Ok(())
    }

    #[tactic(auto, unfolding(crate::specs::Differences::has_question))]
    fn has(&self, one: &Wanted) -> bool
        ensures { result ≡ has_question self.now one.now }
    {
        self.names.contains(one)
    }

    #[tactic(auto, unfolding(crate::specs::Differences::has_question))]
    fn is_none(&self) -> bool
        ensures { IsTrue result → (q : Question) → has_question self.now q ≡ false }
    {
        self.names.is_empty()
    }

    fn leaves_all(&self, asked: &[Wanted]) -> bool
        ensures { IsTrue result → (q : Question) → IsAmong asked.now q → has_question self.now q ≡ false }
    {
        let mut rest = asked;
        'asked: while let Some((one, behind)) = rest.split_first() {
            if self.has(one) {
                return false;
            }
            rest = behind;
        }
        true
    }

    /// Whether the names of these tokens are all as they were. The cost is linear in the number of tokens, and constant where all are.
    pub fn leaves(&self, alloc: Global, tokens: &[OutToken]) -> Result<bool, AllocError>
        ensures { IfOk result (λ b. b ≡ true → (q : Question) → Asks (bare_tokens tokens.now) q → has_question self.now q ≡ false) }
    {
        if self.is_none() {
            return Ok(true);
        }
        let asked = asked_by(alloc, tokens)?;
        Ok(self.leaves_all(asked.as_slice()))
    }
}

fn note_entity(
    alloc: Global,
    names: &mut Known,
    one: &Wanted,
    entity: &Entity,
) -> Result<(), AllocError>
    ensures { OnOk result ((q : Question) → answered names.new q ≡ (if same_wanted one.now q then Some (Some entity.now) else answered names.old q)) }
{
    let wanted = one.share()?;
    put(alloc, names, wanted, entity)
}

fn note_answer(
    alloc: Global,
    names: &mut Known,
    one: &Wanted,
    entity: Option<&Entity>,
) -> Result<(), AllocError>
    ensures { OnOk result ((q : Question) → said names.new q ≡ (if same_wanted one.now q then or_outside (option_map (λ e. e.now) entity.entry) (said names.old q) else said names.old q)) }
{
    match entity {
        Some(entity) => note_entity(alloc, names, one, entity),
        None => Ok(()),
    }
}

// Notes the question where it isn't answered as it was.
fn compare(
    changed: &mut Changed,
    one: &Wanted,
    was: Option<&Entity>,
    now: Option<&Entity>,
) -> Result<(), AllocError>
    ensures further { OnOk result ((q : Question) → has_question changed.new q ≡ false → has_question changed.old q ≡ false) }
    ensures left { OnOk result (has_question changed.new one.now ≡ false → option_map (λ e. e.now) was.entry ≡ option_map (λ e. e.now) now.entry) }
{
    if same_answer(was, now) {
        return Ok(());
    }
    changed.note(one)
}

// Compares what is said of a question with what was said, and notes what is said.
fn note_one(
    alloc: Global,
    earlier: &Earlier,
    before: &Known,
    one: &Wanted,
    names: &mut Known,
    changed: &mut Changed,
) -> Result<(), AllocError>
    requires { spec.AreSaid earlier.now.known names.old }
    ensures noted { OnOk result (spec.AreSaid earlier.now.known names.new) }
    ensures further { OnOk result (spec.IsFurther earlier.now.known names.old names.new changed.old changed.new) }
    ensures named { OnOk result (said names.new one.now ≡ said earlier.now.known one.now) }
    ensures left { OnOk result (has_question changed.new one.now ≡ false → said before.now one.now ≡ said earlier.now.known one.now) }
{
    let now = earlier.get(one);
    compare(changed, one, said_of(before, one), now)?;
    note_answer(alloc, names, one, now)
}

// Compares what is said of these questions with what was said, and notes what is said.
fn note_all(
    alloc: Global,
    earlier: &Earlier,
    before: &Known,
    asked: &[Wanted],
    names: &mut Known,
    changed: &mut Changed,
) -> Result<(), AllocError>
    requires { spec.AreSaid earlier.now.known names.old }
    ensures noted { OnOk result (spec.AreSaid earlier.now.known names.new) }
    ensures further { OnOk result (spec.IsFurther earlier.now.known names.old names.new changed.old changed.new) }
    ensures named { OnOk result ((q : Question) → IsAmong asked.now q → said names.new q ≡ said earlier.now.known q) }
    ensures left { OnOk result ((q : Question) → IsAmong asked.now q → has_question changed.new q ≡ false → said before.now q ≡ said earlier.now.known q) }
{
    let mut rest = asked;
    'asked: while let Some((one, behind)) = rest.split_first() {
        note_one(alloc, earlier, before, one, names, changed)?;
        rest = behind;
    }
    Ok(())
}

/// Compares what these items say of the names of some tokens with what was said before, notes the names of which they say something else, and what they say. The cost is
/// linear in the number of tokens. It fails for want of memory alone.
pub fn note_names(
    alloc: Global,
    earlier: &Earlier,
    before: &Known,
    tokens: &[OutToken],
    names: &mut Known,
    changed: &mut Changed,
) -> Result<(), AllocError>
    requires { spec.AreSaid earlier.now.known names.old }
    ensures noted { OnOk result (spec.AreSaid earlier.now.known names.new) }
    ensures further { OnOk result (spec.IsFurther earlier.now.known names.old names.new changed.old changed.new) }
    ensures named { OnOk result ((q : Question) → Asks (bare_tokens tokens.now) q → said names.new q ≡ said earlier.now.known q) }
    ensures left { OnOk result ((q : Question) → Asks (bare_tokens tokens.now) q → has_question changed.new q ≡ false → said before.now q ≡ said earlier.now.known q) }
{
    let asked = asked_by(alloc, tokens)?;
    note_all(alloc, earlier, before, asked.as_slice(), names, changed)
}
