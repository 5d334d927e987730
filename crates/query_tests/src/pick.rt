// A choice: `Pick` asks the first input, then the second where the first is 0, else the third, and gives the last answer.

ghost use Rattle.std.specs.Prelude.{◌≡◌, IfOk};
ghost use Rattle.std.specs.Prelude.{[], ◌∷◌};
ghost use Rattle.query_core.specs.declared.rules.Step.TheVariants.{Ask};
ghost use Rattle.query_tests.specs.Pick.{pick, chosen};
ghost use Rattle.query_tests.specs.PickLaws.{pick_lawful, same_key_is, same_number_is};

use query_core::{Answers, Keys, Rules, Step, TryCopy};
use std::alloc::{AllocError, Global};
use std::sync::ledger::Ledger;
use steps::Steps;

/// Three inputs and the choice.
#[derive(Clone, Copy, PartialEq, Eq, Hash, Drop)]
pub enum PickKey {
    In0,
    In1,
    In2,
    Pick,
}

impl TryCopy for PickKey {
    fn try_copy(&self) -> Result<Self, AllocError> {
        Ok(*self)
    }
}

/// The rules of the choice.
#[derive(Drop)]
pub struct PickRules {}

fn ask(alloc: Global, key: PickKey) -> Result<Step<PickKey, u32>, AllocError>
    ensures { IfOk result (λ s. s ≡ Ask (key ∷ [])) }
{
    let mut keys = Vec::new(alloc);
    keys.push(key)?;
    Ok(Step::Ask(Keys::from_vec(keys)))
}

fn choose(first: u32) -> PickKey
    ensures { result ≡ chosen first }
{
    if first == 0 {
        PickKey::In1
    } else {
        PickKey::In2
    }
}

impl Rules for PickRules {
    type Key = PickKey;

    type Value = u32;

    type Run = ();

    ghost queries = { pick };

    ghost has_read = { λ key run had. Unit {0} };

    fn is_input(&self, key: &PickKey) -> bool {
        match key {
            PickKey::Pick => false,
            PickKey::In0 | PickKey::In1 | PickKey::In2 => true,
        }
    }

    fn unset(&self, _alloc: Global, _key: &PickKey) -> Result<u32, AllocError> {
        Ok(0)
    }

    fn begin(&self, _alloc: Global, _key: &PickKey) -> Result<(), AllocError> {
        Ok(())
    }

    fn next<L: Ledger>(
        &self,
        alloc: Global,
        key: &PickKey,
        _run: &mut (),
        answers: &Answers<'_, PickKey, u32>,
        steps: &mut Steps<L>,
    ) -> Result<Step<PickKey, u32>, AllocError> {
        let _ = key;
        let Some(first) = answers.get(&PickKey::In0) else {
            return ask(alloc, PickKey::In0);
        };
        let other = choose(*first);
        match answers.get(&other) {
            None => ask(alloc, other),
            Some(value) => {
                steps.tick();
                Ok(Step::Done(*value))
            }
        }
    }

    ghost same_keys = { same_key_is };

    ghost same_values = { same_number_is };

    ghost lawful = { pick_lawful };
}
