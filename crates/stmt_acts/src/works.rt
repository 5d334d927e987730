// What is left to do of a body: it waits on a list, so that statements which nest without braces need none of the machine's stack.
ghost use Rattle.std.specs.Prelude.{◌≡◌, ◌≤◌, ◌+◌, [], ◌∷◌, ◌++◌, OnOk, MatchOption};
ghost use Rattle.stmt_acts.specs.Shown.{act_of, one_of};
ghost use Rattle.stmt_acts.specs.Works as spec;

use crate::acts::{Act, Within};
use std::alloc::{AllocError, Global};
use tree_data::{Item, Lead, Stmt};

/// A step, or what gives steps: a statement, what a block consists of, or a statement with these in front of it.
#[derive(Drop)]
pub(crate) enum Work<'a> {
    Done(Act<'a>),
    Stated(Within, &'a Stmt),
    Listed(Within, &'a [Item]),
    Led(Within, &'a [Lead], &'a Stmt),
}

/// What is left to do, what comes next last.
#[derive(Drop)]
pub(crate) struct Works<'a> {
    list: Vec<Work<'a>>,
}

impl<'a> Works<'a> {
    /// Nothing.
    #[tactic(auto, unfolding(crate::specs::Works::acts_left, crate::specs::Works::size_left))]
    pub(crate) fn new(alloc: Global) -> Works<'a>
        ensures acts { spec.acts_left result ≡ [] }
        ensures size { spec.size_left result ≡ 0 }
    {
        Works {
            list: Vec::new(alloc),
        }
    }

    /// Puts this in front of what is left.
    #[tactic(auto, unfolding(crate::specs::Works::acts_left, crate::specs::Works::size_left))]
    pub(crate) fn push(&mut self, work: Work<'a>) -> Result<(), AllocError>
        ensures acts { OnOk result (spec.acts_left self.new ≡ spec.acts_in work.entry ++ spec.acts_left self.old) }
        ensures size { OnOk result (spec.size_left self.new ≡ spec.size_in work.entry + spec.size_left self.old) }
    {
        self.list.push(work)?;
        Ok(())
    }

    /// Takes what comes next.
    #[tactic(auto, unfolding(crate::specs::Works::acts_left, crate::specs::Works::size_left))]
    pub(crate) fn pop(&mut self) -> Option<Work<'a>>
        ensures acts { MatchOption result (spec.acts_left self.old ≡ []) (λ work. spec.acts_left self.old ≡ spec.acts_in work ++ spec.acts_left self.new) }
        ensures size { MatchOption result (spec.size_left self.old ≡ 0) (λ work. spec.size_left self.old ≡ spec.size_in work + spec.size_left self.new) }
    {
        self.list.pop()
    }

    /// Puts a step in front of what is left.
    pub(crate) fn act(&mut self, act: Act<'a>) -> Result<(), AllocError>
        ensures acts { OnOk result (spec.acts_left self.new ≡ act_of act.entry ∷ spec.acts_left self.old) }
        ensures size { OnOk result (spec.size_left self.new ≡ 1 + spec.size_left self.old) }
    {
        self.push(Work::Done(act))
    }

    /// The same, if there is one.
    pub(crate) fn perhaps(&mut self, act: Option<Act<'a>>) -> Result<(), AllocError>
        ensures acts { OnOk result (spec.acts_left self.new ≡ one_of act.entry ++ spec.acts_left self.old) }
        ensures size { OnOk result (spec.size_left self.new ≤ 1 + spec.size_left self.old) }
    {
        match act {
            Some(act) => self.act(act),
            None => Ok(()),
        }
    }
}
