// The rules of a graph, and the answers that a run has so far.

ghost use Rattle.std.specs.Prelude.{◌≡◌, ◌+◌, List, [], IfOk, OnOk, Option, true};
ghost use Rattle.std.specs.Map.{lookup};
ghost use Rattle.std.specs.Option.{option_copied};
ghost use Rattle.query_core.specs.Answering.{pairs_at, IsNumbered};
ghost use Rattle.query_core.specs.Queries.{Queries, AreLawful, HasReadFirst, ticks};

use crate::keys::{Answered, Keys, TryCopy};
use crate::store::Store;
use std::alloc::{AllocError, Global};
use std::hash::Hash;
use std::marker::Model;
use std::sync::ledger::Ledger;
use steps::Steps;

/// Up to so many answers are looked through one by one; of more, the one of a key is found by its node.
const FEW: usize = 8;

/// What a run does next.
#[derive(Drop)]
pub enum Step<K, V> {
    /// It asks for the values of these keys.
    Ask(Keys<K>),
    /// It has its value.
    Done(V),
}

/// The keys that a run asked for and that are answered, with their values, in the order of asking.
#[derive(Drop)]
pub struct Answers<'a, K: Eq + Hash, V> {
    store: &'a Store<K, V>,
    answered: &'a Answered,
    /// The node that the run's key read next when it ran last, which spares a look-up.
    next: Option<u32>,
}

impl<'a, K: Eq + Hash, V> Model for Answers<'a, K, V> {
    ghost use Rattle.std.specs.Prelude.{List};
    ghost use Rattle.query_core.specs.Answering.{pairs_at, IsNumbered};

    ghost Value = { List (K × V) };

    ghost view = { λ a. pairs_at a.store.now a.answered.now };

    ghost invariant = { λ a. IsNumbered K.eq a.store.now };
}

impl<'a, K: Eq + Hash + TryCopy + Drop, V: Drop> Answers<'a, K, V> {
    /// What the store holds for these answers; the key that is read next may have this node.
    pub(crate) fn new(
        store: &'a Store<K, V>,
        answered: &'a Answered,
        next: Option<u32>,
    ) -> Answers<'a, K, V>
        requires { IsNumbered K.eq store.now }
        ensures { result ≡ pairs_at store.now answered.now }
    {
        Answers {
            store,
            answered,
            next,
        }
    }

    /// The value that answers the key, or `None` where the run didn't ask for it. It takes no memory, and a time that doesn't
    /// depend on the number of answers.
    pub fn get(&self, key: &K) -> Option<&'a V>
        ensures { option_copied result ≡ lookup (K.eq key.now) self.now }
    {
        if self.answered.len() <= FEW {
            return self.store.value_among(key, self.answered.as_slice());
        }
        let node = self.store.find(key, self.next, self.answered.last())?;
        if !self.answered.contains(node) {
            return None;
        }
        let kept = self.store.node(node)?;
        Some(kept.value)
    }
}

/// What a graph computes: which keys are inputs, and how the value of each other key follows from the values of keys that its run asks for.
///
/// The meaning is `queries`. It belongs to the type, and not to the value of it that is handed in. `has_read` says that what a run of
/// a key keeps comes from these answers, in the order of asking.
pub trait Rules {
    /// A question.
    type Key: Eq + Hash + TryCopy + Drop;
    /// Its answer.
    type Value: Eq + Drop;
    /// What a run keeps between its rounds, so that it goes on where it stopped; `()` where it keeps nothing.
    type Run: Drop;

    ghost queries: { Queries Self.Key Self.Value };

    ghost has_read: { Self.Key → Self.Run → List (Self.Key × Self.Value) → Type 0 };

    /// Whether the key is an input.
    fn is_input(&self, key: &Self::Key) -> bool
        ensures { result ≡ queries.is_input key.now };

    /// The value of an input that was never set.
    fn unset(&self, alloc: Global, key: &Self::Key) -> Result<Self::Value, AllocError>
        ensures { IfOk result (λ value. value ≡ queries.unset key.now) };

    /// A run of this key, which has read nothing.
    fn begin(&self, alloc: Global, key: &Self::Key) -> Result<Self::Run, AllocError>
        ensures { IfOk result (λ run. has_read key.now run []) };

    /// What a run of this key does next, after these answers. It has read the first of them, and then has read all. It counts one
    /// step where it is done, and none otherwise. After want of memory it is dropped.
    fn next<L: Ledger>(
        &self,
        alloc: Global,
        key: &Self::Key,
        run: &mut Self::Run,
        answers: &Answers<'_, Self::Key, Self::Value>,
        steps: &mut Steps<L>,
    ) -> Result<Step<Self::Key, Self::Value>, AllocError>
        requires { HasReadFirst has_read key.now run.old answers.now }
        ensures step { IfOk result (λ s. s ≡ queries.step key.now answers.now) }
        ensures read { OnOk result (has_read key.now run.new answers.now) }
        ensures ticks { steps.new ≡ steps.old + ticks result };

    ghost same_keys: { (a b : Self.Key) → Self.Key.eq a b ≡ queries.same a b };

    ghost same_values: { (a b : Self.Value) → Self.Value.eq a b ≡ true → a ≡ b };

    ghost lawful: { AreLawful queries };
}
