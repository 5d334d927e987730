// A web of knots: the first eight are inputs; each other reads one of those before it, and then one that the first one's value picks.

ghost use Rattle.std.specs.Prelude.{◌≡◌, IfOk, [], ◌∷◌};
ghost use Rattle.query_core.specs.declared.rules.Step.TheVariants.{Ask};
ghost use Rattle.query_tests.specs.PickLaws.{same_number_is};
ghost use Rattle.query_tests.specs.Web.{web, knot, first_number, second_number, joined};
ghost use Rattle.query_tests.specs.WebLaws.{web_lawful, same_knot_is};

use query_core::{Answers, Keys, Rules, Step, TryCopy};
use std::alloc::{AllocError, Global};
use std::sync::ledger::Ledger;
use steps::Steps;

/// A knot, by its number.
#[derive(Clone, Copy, PartialEq, Eq, Hash, Drop)]
pub struct Knot {
    pub number: u32,
}

impl TryCopy for Knot {
    fn try_copy(&self) -> Result<Self, AllocError> {
        Ok(*self)
    }
}

/// The rules of the web. The knot of one number is refused memory: its run, or the value of the input that isn't set.
#[derive(Drop)]
pub struct WebRules {
    pub refused: u32,
}

fn ask(alloc: Global, key: Knot) -> Result<Step<Knot, u32>, AllocError>
    ensures { IfOk result (λ s. s ≡ Ask (key ∷ [])) }
{
    let mut keys = Vec::new(alloc);
    keys.push(key)?;
    Ok(Step::Ask(Keys::from_vec(keys)))
}

/// What the knot of this number reads first.
#[tactic(auto, unfolding(crate::specs::Web::first_number))]
pub(crate) fn first_of(number: u32) -> u32
    ensures { result ≡ first_number number }
{
    if number % 2 == 0 {
        number.saturating_sub(1)
    } else {
        number.saturating_sub(4)
    }
}

/// What it reads then, by the value of the first.
#[tactic(auto, unfolding(crate::specs::Web::second_number))]
pub(crate) fn second_of(number: u32, value: u32) -> u32
    ensures { result ≡ second_number number value }
{
    if value == 0 {
        number.saturating_sub(6)
    } else {
        number.saturating_sub(8)
    }
}

/// The value of a knot by those that it reads.
#[tactic(auto, unfolding(crate::specs::Web::joined))]
pub(crate) fn join(first: u32, second: u32) -> u32
    ensures { result ≡ joined first second }
{
    let sum = u64::from(first) + u64::from(second);
    (sum % 3) as u32
}

impl Rules for WebRules {
    type Key = Knot;

    type Value = u32;

    type Run = ();

    ghost queries = { web };

    ghost has_read = { λ key run had. Unit {0} };

    fn is_input(&self, key: &Knot) -> bool {
        key.number < 8
    }

    fn unset(&self, _alloc: Global, key: &Knot) -> Result<u32, AllocError> {
        if key.number == self.refused {
            return Err(AllocError);
        }
        Ok(0)
    }

    fn begin(&self, _alloc: Global, _key: &Knot) -> Result<(), AllocError> {
        Ok(())
    }

    fn next<L: Ledger>(
        &self,
        alloc: Global,
        key: &Knot,
        _run: &mut (),
        answers: &Answers<'_, Knot, u32>,
        steps: &mut Steps<L>,
    ) -> Result<Step<Knot, u32>, AllocError> {
        if key.number == self.refused {
            return Err(AllocError);
        }
        let number = first_of(key.number);
        let before = Knot { number };
        let Some(first) = answers.get(&before) else {
            return ask(alloc, before);
        };
        let number = second_of(key.number, *first);
        let other = Knot { number };
        match answers.get(&other) {
            None => ask(alloc, other),
            Some(second) => {
                steps.tick();
                Ok(Step::Done(join(*first, *second)))
            }
        }
    }

    ghost same_keys = { same_knot_is };

    ghost same_values = { same_number_is };

    ghost lawful = { web_lawful };
}
