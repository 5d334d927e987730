// The walk of a demand, on a path of its own.

ghost use Rattle.std.specs.Prelude.{if◌then◌else◌, ◌≡◌, ℕ, ◌+◌, ◌<◌, ◌≤◌, ◌++◌, ◌∷◌, [], slice_get, true, false, None, Some, Ok, Err, OnOk, OnErr, IfSome, IsSome, IfOk, IsOk, Option, length};
ghost use Rattle.query_core.specs.Stored.{seen};
ghost use Rattle.query_core.specs.Graph.{at, node_of, record_of, is_current, is_verified};
ghost use Rattle.query_core.specs.Soundness.{IsSound, IsUnswept, kept};
ghost use Rattle.query_core.specs.Queries.{HasReadFirst, ticks};
ghost use Rattle.query_core.specs.Walk.{IsFrame, IsStage, IsChecking, IsRunning, HasBegun, IsHalt, IsGivenUp, halted, IsLook, IsLookAt, IsFound, IsSettledTo, IsCollected, IsEntry, IsStep, Finishes, AreAnswered};
ghost use Rattle.query_core.specs.Lists.{Each, IsOnce};
ghost use Rattle.query_core.specs.Changes.{IsHolding, IsRun, Leaves, Walked, WalkedBy, ran};
ghost use Rattle.query_core.specs.Node.{Node};

use super::{Graph, NodeId};
use crate::frame::{Checked, Found, Frame, Halt, Hints, Look, Moved, Running, Stage};
use crate::keys::{Answered, Keys, Reads, TryCopy};
use crate::record::{Record, Seen};
use crate::rules::{Answers, Rules, Step};
use std::alloc::{AllocError, Global};
use std::sync::ledger::Ledger;
use steps::Steps;

/// How many roots were demanded in order, after a key that has this node, where this was the next one's.
fn past_root(demanded: usize, next: Option<u32>, found: Option<u32>) -> usize {
    if next == found {
        demanded.saturating_add(1)
    } else {
        demanded
    }
}

impl<R: Rules> Graph<R> {
    /// Whether the record was verified now.
    fn is_current(&self, rules: &R, node: &Seen<'_, R::Key, R::Value>) -> bool
        ensures { result ≡ is_current R.queries self.now (seen node.now) }
    {
        rules.is_input(node.key) || node.verified_at == self.revision
    }

    /// Where the record of a key stands that has this node.
    #[tactic(auto, using(crate::proofs::Reading::verified_is))]
    fn stands(&self, rules: &R, key: &R::Key, node: Option<u32>) -> Found
        requires { node_of R.queries self.now key.now ≡ node }
        ensures { IsFound R.queries self.now key.now result }
    {
        let Some(index) = node else {
            return Found::Behind(None);
        };
        let Some(kept) = self.node(index) else {
            return Found::Behind(node);
        };
        if self.is_current(rules, &kept) {
            Found::Current(index)
        } else {
            Found::Behind(node)
        }
    }

    /// The node of a key; where it is one of those that are expected, a look at that record tells it.
    pub(super) fn find(
        &self,
        key: &R::Key,
        expected: Option<u32>,
        finished: Option<u32>,
    ) -> Option<u32>
        ensures value { result ≡ node_of R.queries self.now key.now }
        ensures sound { IsSound R.queries self.now }
    {
        self.store.find(key, expected, finished)
    }

    /// How the work on a key that isn't verified begins.
    fn first_stage(&self, rules: &R, key: &R::Key, at_node: Option<u32>) -> Stage<R::Key, R::Run>
        requires stale { is_verified R.queries self.now key.now ≡ false }
        requires numbered { node_of R.queries self.now key.now ≡ at_node }
        ensures { IsStage R.queries R.has_read self.now key.now result }
    {
        // a field is named, so the proof knows the type's invariant
        let _ = &self.store;
        if rules.is_input(key) {
            return Stage::Unset;
        }
        match at_node {
            Some(node) => Stage::Check(node, 0),
            None => Stage::Start,
        }
    }

    /// A frame for a key that isn't verified.
    fn begin(&self, rules: &R, key: R::Key, at_node: Option<u32>) -> Frame<R::Key, R::Run>
        requires stale { is_verified R.queries self.now key ≡ false }
        requires numbered { node_of R.queries self.now key ≡ at_node }
        ensures key { result.key ≡ key }
        ensures frame { IsFrame R.queries R.has_read self.now result }
    {
        let stage = self.first_stage(rules, &key, at_node);
        Frame { key, stage }
    }

    /// Looks at one read of a record that was last verified in the revision `since`.
    fn look_at(&self, rules: &R, node: u32, since: u64) -> Look
        requires { IsSome (at self.now node) }
        ensures { IsLookAt R.queries self.now since node result }
    {
        let Some(read) = self.node(node) else {
            unreachable!()
        };
        if !self.is_current(rules, &read) {
            return Look::Open;
        }
        if read.changed_at <= since {
            Look::Settled
        } else {
            Look::Altered
        }
    }

    /// Looks at the reads of a record from a place on: each one only after all earlier ones are verified and unchanged.
    fn look(&self, rules: &R, node: u32, place: usize) -> Checked
        requires stands { IsSome (at self.now node) }
        requires so_far { (r : Node R.Key R.Value) → at self.now node ≡ Some r → IsSettledTo R.queries self.now r place }
        ensures look { (r : Node R.Key R.Value) → at self.now node ≡ Some r → IsLook R.queries self.now r result }
        ensures sound { IsSound R.queries self.now }
    {
        let Some(kept) = self.node(node) else {
            unreachable!()
        };
        let reads = kept.reads;
        for at in place..reads.len() {
            match self.look_at(rules, reads[at], kept.verified_at) {
                Look::Settled => {}
                Look::Altered => return Checked::Changed,
                Look::Open => return Checked::Stale(at),
            }
        }
        Checked::Unchanged
    }

    /// The key of a read of a record, and its node.
    fn read_key(&self, node: u32, place: usize) -> Result<(R::Key, u32), AllocError>
        requires { (r : Node R.Key R.Value) × ((at self.now node ≡ Some r) × (place < length r.reads)) }
        ensures { IfOk result (λ read. (r d : Node R.Key R.Value) (j : ℕ) → at self.now node ≡ Some r → slice_get r.reads place ≡ Some j → at self.now j ≡ Some d → (d.key ≡ read.0) × (j ≡ read.1)) }
    {
        let Some(kept) = self.node(node) else {
            unreachable!()
        };
        let index = kept.reads[place];
        match self.node(index) {
            Some(read) => {
                let key = read.key.try_copy()?;
                Ok((key, index))
            }
            None => unreachable!(),
        }
    }

    /// The node of a read of a record, where there is one.
    fn read_at(&self, node: Option<u32>, place: usize) -> Option<u32> {
        let kept = self.node(node?)?;
        kept.reads.get(place).copied()
    }

    /// How many reads the record at the node has, where there is one.
    fn reads_before(&self, node: Option<u32>) -> usize {
        let Some(index) = node else {
            return 0;
        };
        match self.node(index) {
            Some(kept) => kept.reads.len(),
            None => 0,
        }
    }

    /// Takes the answers to what was asked, as far as it is verified, and gives the first key that isn't, with its node. A key that was
    /// read at its place before, or that was finished last, is found without a look-up.
    fn collect(
        &self,
        rules: &R,
        hints: Hints,
        asked: &Keys<R::Key>,
        answered: &mut Answered,
    ) -> Result<Option<(R::Key, Option<u32>)>, AllocError>
        requires { AreAnswered R.queries self.now asked.now answered.old }
        ensures { IfOk result (IsCollected R.queries self.now asked.now answered.new) }
    {
        let keys = asked.as_slice();
        for place in answered.len()..keys.len() {
            let key = &keys[place];
            let before = self.read_at(hints.node, place);
            let node = self.find(key, before, hints.finished);
            match self.stands(rules, key, node) {
                Found::Current(node) => answered.push(node)?,
                Found::Behind(node) => {
                    let on = key.try_copy()?;
                    return Ok(Some((on, node)));
                }
            }
        }
        Ok(None)
    }

    /// Asks the rules what a run does next.
    fn round<L: Ledger>(
        &self,
        alloc: Global,
        rules: &R,
        key: &R::Key,
        at_node: Option<u32>,
        run: &mut R::Run,
        answered: &Answered,
        steps: &mut Steps<L>,
    ) -> Result<Step<R::Key, R::Value>, AllocError>
        requires { HasReadFirst R.has_read key.now run.old (kept self.now answered.now) }
        ensures read { OnOk result (R.has_read key.now run.new (kept self.now answered.now)) }
        ensures step { IfOk result (λ s. s ≡ R.queries.step key.now (kept self.now answered.now)) }
        ensures ticks { steps.new ≡ steps.old + ticks result }
        ensures sound { IsSound R.queries self.now }
    {
        let next = self.read_at(at_node, answered.len());
        let answers = Answers::new(&self.store, answered, next);
        rules.next(alloc, key, run, &answers, steps)
    }

    /// Marks the record of a key as verified: all its reads are verified and unchanged.
    fn touch(&mut self, key: &R::Key, node: u32)
        requires no_input { R.queries.is_input key.now ≡ false }
        requires stale { is_verified R.queries self.old key.now ≡ false }
        requires numbered { node_of R.queries self.old key.now ≡ Some node }
        requires unswept { IsUnswept R.queries self.old }
        requires fresh { self.old.demanded_at ≡ self.old.revision }
        requires settled { (r : Node R.Key R.Value) → at self.old node ≡ Some r → IsSettledTo R.queries self.old r (length r.reads) }
        ensures finishes { Finishes R.queries self.old self.new key.now node }
        ensures sound { IsSound R.queries self.new }
        ensures unswept { IsUnswept R.queries self.new }
        ensures runs { self.new.runs ≡ self.old.runs }
    {
        let now = self.revision;
        self.store.verify(node, now);
    }

    /// Makes the record of an input that isn't set.
    fn add_unset(&mut self, rules: &R, key: R::Key) -> Result<u32, AllocError>
        requires input { R.queries.is_input key ≡ true }
        requires absent { record_of R.queries self.old key ≡ None }
        requires unswept { IsUnswept R.queries self.old }
        ensures finishes { IfOk result (λ node. Finishes R.queries self.old self.new key node) }
        ensures sound { OnOk result (IsSound R.queries self.new) }
        ensures unswept { OnOk result (IsUnswept R.queries self.new) }
        ensures runs { self.new.runs ≡ self.old.runs }
        ensures err { OnErr result (self.new ≡ self.old) }
    {
        let value = rules.unset(self.alloc, &key)?;
        let reads = Reads::new(self.alloc);
        let now = self.revision;
        let added = Record {
            key,
            value,
            reads,
            input: true,
            clean: false,
            verified_at: now,
            changed_at: now,
        };
        let node = self.store.add(added)?;
        Ok(node)
    }

    /// Enters the value of a run of a key that has this node.
    fn enter(
        &mut self,
        key: R::Key,
        at_node: Option<u32>,
        value: R::Value,
        reads: Reads,
    ) -> Result<u32, AllocError>
        requires numbered { node_of R.queries self.old key ≡ at_node }
        requires entry { IsEntry R.queries self.old key value reads }
        requires unswept { IsUnswept R.queries self.old }
        requires fresh { self.old.demanded_at ≡ self.old.revision }
        ensures finishes { IfOk result (λ node. Finishes R.queries self.old self.new key node) }
        ensures sound { OnOk result (IsSound R.queries self.new) }
        ensures unswept { OnOk result (IsUnswept R.queries self.new) }
        ensures runs { OnOk result (self.new.runs ≡ self.old.runs ++ key ∷ []) }
        ensures err { OnErr result (self.new ≡ self.old) }
    {
        let now = self.revision;
        self.runs.reserve(1)?;
        let ran = key.try_copy()?;
        match at_node {
            Some(node) => {
                self.store.renew(node, value, reads, now)?;
                self.runs.push_reserved(ran);
                Ok(node)
            }
            None => {
                let added = Record {
                    key,
                    value,
                    reads,
                    input: false,
                    clean: true,
                    verified_at: now,
                    changed_at: now,
                };
                let node = self.store.add(added)?;
                self.runs.push_reserved(ran);
                Ok(node)
            }
        }
    }

    /// Lets a run go on until it has its value or asks for a key that isn't verified.
    fn go_on<L: Ledger>(
        &self,
        rules: &R,
        key: &R::Key,
        hints: Hints,
        run: &mut R::Run,
        asked: &mut Keys<R::Key>,
        answered: &mut Answered,
        steps: &mut Steps<L>,
    ) -> Result<Halt<R::Key, R::Value>, AllocError>
        requires running { IsRunning R.queries self.now key.now asked.old answered.old }
        requires begun { HasBegun R.queries R.has_read self.now key.now run.old asked.old }
        ensures halt { IfOk result (IsHalt R.queries self.now key.now asked.new answered.new) }
        ensures begun { OnOk result (HasBegun R.queries R.has_read self.now key.now run.new asked.new) }
        ensures ticks { steps.new ≡ steps.old + halted result }
    {
        'rounds: loop {
            let open = self.collect(rules, hints, asked, answered)?;
            match open {
                Some((on, node)) => return Ok(Halt::Pauses(on, node)),
                None => {}
            }
            let step = self.round(self.alloc, rules, key, hints.node, run, answered, steps)?;
            match step {
                Step::Ask(more) => asked.append(more)?,
                Step::Done(value) => return Ok(Halt::Ends(value)),
            }
        }
    }

    /// A step of the walk on a key that runs.
    fn run<L: Ledger>(
        &mut self,
        rules: &R,
        key: R::Key,
        hints: Hints,
        run: R::Run,
        asked: Keys<R::Key>,
        answered: Answered,
        steps: &mut Steps<L>,
    ) -> Result<Moved<R::Key, R::Run>, AllocError>
        requires stale { is_verified R.queries self.old key ≡ false }
        requires unswept { IsUnswept R.queries self.old }
        requires fresh { self.old.demanded_at ≡ self.old.revision }
        requires numbered { node_of R.queries self.old key ≡ hints.node }
        requires running { IsRunning R.queries self.old key asked answered }
        requires begun { HasBegun R.queries R.has_read self.old key run asked }
        ensures ok { IfOk result (IsStep R.queries R.has_read self.old self.new key steps.old steps.new) }
        ensures err { OnErr result (IsGivenUp self.old self.new steps.old steps.new) }
    {
        let mut run = run;
        let mut asked = asked;
        let mut answered = answered;
        let halt = self.go_on(
            rules,
            &key,
            hints,
            &mut run,
            &mut asked,
            &mut answered,
            steps,
        )?;
        match halt {
            Halt::Pauses(on, on_node) => {
                let running = Running {
                    node: hints.node,
                    run,
                    asked,
                    answered,
                };
                let running = Box::new(self.alloc, running)?;
                let stage = Stage::Run(running);
                Ok(Moved::Waits(Frame { key, stage }, on, on_node))
            }
            Halt::Ends(value) => {
                let node = self.enter(key, hints.node, value, answered.into_reads())?;
                Ok(Moved::Done(node))
            }
        }
    }

    /// The first step of the walk on a key that runs. There is room for as many reads as the key's last run had.
    fn start<L: Ledger>(
        &mut self,
        rules: &R,
        key: R::Key,
        node: Option<u32>,
        steps: &mut Steps<L>,
    ) -> Result<Moved<R::Key, R::Run>, AllocError>
        requires stale { is_verified R.queries self.old key ≡ false }
        requires unswept { IsUnswept R.queries self.old }
        requires fresh { self.old.demanded_at ≡ self.old.revision }
        requires numbered { node_of R.queries self.old key ≡ node }
        requires running { IsRunning R.queries self.old key [] [] }
        ensures ok { IfOk result (IsStep R.queries R.has_read self.old self.new key steps.old steps.new) }
        ensures err { OnErr result (IsGivenUp self.old self.new steps.old steps.new) }
    {
        let run = rules.begin(self.alloc, &key)?;
        let room = self.reads_before(node);
        let asked = Keys::with_room(self.alloc, room)?;
        let answered = Answered::with_room(self.alloc, room)?;
        let hints = Hints {
            node,
            finished: None,
        };
        self.run(rules, key, hints, run, asked, answered, steps)
    }

    /// A step of the walk on a key whose record is looked at.
    fn check<L: Ledger>(
        &mut self,
        rules: &R,
        key: R::Key,
        node: u32,
        place: usize,
        steps: &mut Steps<L>,
    ) -> Result<Moved<R::Key, R::Run>, AllocError>
        requires stale { is_verified R.queries self.old key ≡ false }
        requires unswept { IsUnswept R.queries self.old }
        requires fresh { self.old.demanded_at ≡ self.old.revision }
        requires checking { IsChecking R.queries self.old key node place }
        ensures ok { IfOk result (IsStep R.queries R.has_read self.old self.new key steps.old steps.new) }
        ensures err { OnErr result (IsGivenUp self.old self.new steps.old steps.new) }
    {
        match self.look(rules, node, place) {
            Checked::Unchanged => {
                self.touch(&key, node);
                Ok(Moved::Done(node))
            }
            Checked::Changed => self.start(rules, key, Some(node), steps),
            Checked::Stale(place) => {
                let (on, on_node) = self.read_key(node, place)?;
                let stage = Stage::Check(node, place);
                Ok(Moved::Waits(Frame { key, stage }, on, Some(on_node)))
            }
        }
    }

    /// A step of the walk: the key is finished, or waits for another one.
    fn advance<L: Ledger>(
        &mut self,
        rules: &R,
        frame: Frame<R::Key, R::Run>,
        finished: Option<u32>,
        steps: &mut Steps<L>,
    ) -> Result<Moved<R::Key, R::Run>, AllocError>
        requires frame { IsFrame R.queries R.has_read self.old frame }
        requires unswept { IsUnswept R.queries self.old }
        requires fresh { self.old.demanded_at ≡ self.old.revision }
        ensures ok { IfOk result (IsStep R.queries R.has_read self.old self.new frame.key steps.old steps.new) }
        ensures err { OnErr result (IsGivenUp self.old self.new steps.old steps.new) }
    {
        let Frame { key, stage } = frame;
        match stage {
            Stage::Unset => {
                let node = self.add_unset(rules, key)?;
                Ok(Moved::Done(node))
            }
            Stage::Check(node, place) => self.check(rules, key, node, place, steps),
            Stage::Start => self.start(rules, key, None, steps),
            Stage::Run(running) => {
                let Running {
                    node,
                    run,
                    asked,
                    answered,
                } = Box::into_inner(running);
                let hints = Hints { node, finished };
                self.run(rules, key, hints, run, asked, answered, steps)
            }
        }
    }

    /// Walks from a key that isn't verified, on a path of its own.
    fn walk<L: Ledger>(
        &mut self,
        rules: &R,
        key: R::Key,
        at_node: Option<u32>,
        steps: &mut Steps<L>,
    ) -> Result<NodeId, AllocError>
        requires stale { is_verified R.queries self.old key ≡ false }
        requires numbered { node_of R.queries self.old key ≡ at_node }
        requires unswept { IsUnswept R.queries self.old }
        requires fresh { self.old.demanded_at ≡ self.old.revision }
        ensures walked { Walked R.queries self.old key self.new }
        ensures fresh { self.new.demanded_at ≡ self.new.revision }
        ensures ok { IfOk result (λ id. IsHolding R.queries self.old self.new key id × (steps.new ≡ steps.old + length (ran self.old self.new))) }
        ensures err { OnErr result ((steps.old + length (ran self.old self.new) ≤ steps.new) × (steps.new ≤ steps.old + length (ran self.old self.new) + 1)) }
    {
        let mut path: Vec<Frame<R::Key, R::Run>> = Vec::new(self.alloc);
        let mut top = self.begin(rules, key, at_node);
        let mut finished = None;
        'steps: loop {
            let moved = self.advance(rules, top, finished, steps)?;
            match moved {
                Moved::Waits(frame, on, at_node) => {
                    path.reserve(1)?;
                    path.push_reserved(frame);
                    top = self.begin(rules, on, at_node);
                }
                Moved::Done(index) => match path.pop() {
                    Some(frame) => {
                        finished = Some(index);
                        top = frame;
                    }
                    None => return Ok(NodeId { index }),
                },
            }
        }
    }

    /// Lets the clean records count as verified now.
    fn freshen(&mut self)
        requires unswept { IsUnswept R.queries self.old }
        ensures before { IsSound R.queries self.old }
        ensures fresh { self.new.demanded_at ≡ self.new.revision }
        ensures numbers { (k : R.Key) → node_of R.queries self.new k ≡ node_of R.queries self.old k }
        ensures walked { WalkedBy R.queries self.old (λ k. ⊥) self.new }
        ensures runs { self.new.runs ≡ self.old.runs }
    {
        let now = self.revision;
        self.store.freshen(now);
    }

    /// Walks from a key that has this node, where it isn't clean.
    fn catch_up<L: Ledger>(
        &mut self,
        rules: &R,
        key: R::Key,
        at_node: Option<u32>,
        steps: &mut Steps<L>,
    ) -> Result<NodeId, AllocError>
        requires numbered { node_of R.queries self.old key ≡ at_node }
        requires unswept { IsUnswept R.queries self.old }
        ensures walked { Walked R.queries self.old key self.new }
        ensures fresh { self.new.demanded_at ≡ self.new.revision }
        ensures ok { IfOk result (λ id. IsHolding R.queries self.old self.new key id × (steps.new ≡ steps.old + length (ran self.old self.new))) }
        ensures err { OnErr result ((steps.old + length (ran self.old self.new) ≤ steps.new) × (steps.new ≤ steps.old + length (ran self.old self.new) + 1)) }
    {
        self.freshen();
        match self.stands(rules, &key, at_node) {
            Found::Current(index) => Ok(NodeId { index }),
            Found::Behind(node) => self.walk(rules, key, node, steps),
        }
    }

    /// The node of a key, whose record is verified now and holds the key's value over the inputs. No `sweep` may have been called in
    /// this revision.
    ///
    /// What is due on the way runs; each run is one step of the counter and one key of `runs`. A key that was verified in this revision is answered without
    /// memory. After want of memory the graph is sound, and each record whose key didn't run stands as before or counts as verified now;
    /// the counter has then risen by the number of runs, or by one more where a value was worked out and couldn't be kept.
    pub fn demand<L: Ledger>(
        &mut self,
        rules: &R,
        key: R::Key,
        steps: &mut Steps<L>,
    ) -> Result<NodeId, AllocError>
        requires unswept { IsUnswept R.queries self.old }
        ensures sound { IsSound R.queries self.new }
        ensures still_unswept { IsUnswept R.queries self.new }
        ensures holds { IfOk result (λ id. IsHolding R.queries self.old self.new key id) }
        ensures leaves { Leaves R.queries self.old self.new key (ran self.old self.new) }
        ensures due { Each (IsRun R.queries self.old key) (ran self.old self.new) }
        ensures once { IsOnce self.new.runs }
        ensures counted { OnOk result (steps.new ≡ steps.old + length (ran self.old self.new)) }
        ensures given_up { OnErr result ((steps.old + length (ran self.old self.new) ≤ steps.new) × (steps.new ≤ steps.old + length (ran self.old self.new) + 1)) }
        ensures demanded { self.new.demanded_at ≡ (if is_verified R.queries self.old key then self.old.demanded_at else self.old.revision) }
        ensures again { is_verified R.queries self.old key ≡ true → IsOk result × (self.new ≡ self.old) × (steps.new ≡ steps.old) }
    {
        let next = self.store.root_at(self.demanded);
        let found = self.find(&key, next, None);
        self.demanded = past_root(self.demanded, next, found);
        match self.stands(rules, &key, found) {
            Found::Current(index) => Ok(NodeId { index }),
            Found::Behind(node) => self.catch_up(rules, key, node, steps),
        }
    }
}
