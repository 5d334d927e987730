// The choice, played on a graph: edits and demands, and what each demand gave.

ghost use Rattle.std.specs.Prelude.{◌≡◌, ◌+◌, ◌<◌, ◌^◌, true, IfOk, length};
ghost use Rattle.query_core.specs.Soundness.{IsUnswept};
ghost use Rattle.query_tests.specs.Pick.{is_input_key, pick};

use crate::pick::{PickKey, PickRules};
use query_core::Graph;
use std::alloc::{AllocError, Global};
use std::sync::ledger::{Blank, Ledger};
use steps::Steps;

/// An input of the choice.
#[derive(Clone, Copy, Drop)]
pub enum Input {
    In0,
    In1,
    In2,
}

/// An edit, and whether `Pick` is demanded after it.
#[derive(Clone, Copy, Drop)]
pub struct Turn {
    pub input: Input,
    pub value: u32,
    pub demands: bool,
}

/// What a turn gave: the value of `Pick` where it was demanded, how many keys ran, and how many records there are.
#[derive(Clone, Copy, Debug, PartialEq, Eq, Drop)]
pub struct Outcome {
    pub value: Option<u32>,
    pub runs: usize,
    pub records: usize,
}

fn key_of(input: Input) -> PickKey
    ensures { is_input_key result ≡ true }
{
    match input {
        Input::In0 => PickKey::In0,
        Input::In1 => PickKey::In1,
        Input::In2 => PickKey::In2,
    }
}

/// What a sweep between two demands of `Pick` gave: how many records it removed, how many it left, and what the second demand gave.
#[derive(Clone, Copy, Debug, PartialEq, Eq, Drop)]
pub struct Between {
    pub removed: usize,
    pub left: usize,
    pub after: Outcome,
}

/// The value of `Pick`, and what ran for it.
fn demanded<L: Ledger>(
    graph: &mut Graph<PickRules>,
    steps: &mut Steps<L>,
) -> Result<Outcome, AllocError>
    requires { IsUnswept pick graph.old }
    ensures { graph.new.revision ≡ graph.old.revision }
{
    let id = graph.demand(&PickRules {}, PickKey::Pick, steps)?;
    Ok(Outcome {
        value: Some(*graph.value(id)),
        runs: graph.runs().len(),
        records: graph.len(),
    })
}

/// Begins a revision, makes the edit and demands `Pick` where the turn says so.
fn take_turn<L: Ledger>(
    graph: &mut Graph<PickRules>,
    turn: &Turn,
    steps: &mut Steps<L>,
) -> Result<Outcome, AllocError>
    requires { graph.old.revision < 2 ^ 62 }
    ensures { graph.new.revision ≡ graph.old.revision + 1 }
{
    graph.next_revision();
    graph.set_input(key_of(turn.input), turn.value)?;
    if turn.demands {
        return demanded(graph, steps);
    }
    Ok(Outcome {
        value: None,
        runs: graph.runs().len(),
        records: graph.len(),
    })
}

/// A graph with the inputs 0, 5 and 7.
fn begun(alloc: Global) -> Result<Graph<PickRules>, AllocError>
    ensures revision { IfOk result (λ g. g.revision ≡ 0) }
    ensures unswept { IfOk result (λ g. IsUnswept pick g) }
{
    let mut graph = Graph::new(alloc);
    graph.set_input(PickKey::In0, 0)?;
    graph.set_input(PickKey::In1, 5)?;
    graph.set_input(PickKey::In2, 7)?;
    Ok(graph)
}

/// Demands `Pick` and takes the turns, on a graph with the inputs 0, 5 and 7.
pub fn play<L: Ledger>(
    alloc: Global,
    blank: Blank,
    turns: &[Turn],
) -> Result<Vec<Outcome>, AllocError>
    requires name { blank.name ≡ L.name }
    requires parts { blank.parts ≡ L.parts }
    requires some { 0 < L.parts }
    requires few { length turns.now < 1000 }
{
    let mut steps = Steps::<L>::open(blank);
    let mut outcomes = Vec::new(alloc);
    let mut graph = begun(alloc)?;
    outcomes.push(demanded(&mut graph, &mut steps)?)?;
    for turn in turns {
        let outcome = take_turn(&mut graph, turn, &mut steps)?;
        outcomes.push(outcome)?;
    }
    Ok(outcomes)
}

/// Demands `Pick` on a graph with the inputs 0, 5 and 7, sweeps with these roots, and demands it again in the next revision.
pub fn sweep_between<L: Ledger>(
    alloc: Global,
    blank: Blank,
    roots: &[PickKey],
) -> Result<Between, AllocError>
    requires name { blank.name ≡ L.name }
    requires parts { blank.parts ≡ L.parts }
    requires some { 0 < L.parts }
{
    let mut steps = Steps::<L>::open(blank);
    let mut graph = begun(alloc)?;
    demanded(&mut graph, &mut steps)?;
    let removed = graph.sweep(roots)?;
    let left = graph.len();
    graph.next_revision();
    let after = demanded(&mut graph, &mut steps)?;
    Ok(Between {
        removed,
        left,
        after,
    })
}

/// A sweep of the graph of the choice with one input as its root: how many records it removes, or `None` where it is refused memory, and
/// how many are left.
pub fn sweep_once<L: Ledger>(
    alloc: Global,
    blank: Blank,
) -> Result<(Option<usize>, usize), AllocError>
    requires name { blank.name ≡ L.name }
    requires parts { blank.parts ≡ L.parts }
    requires some { 0 < L.parts }
{
    let mut steps = Steps::<L>::open(blank);
    let mut graph = begun(alloc)?;
    demanded(&mut graph, &mut steps)?;
    let removed = match graph.sweep(&[PickKey::In0]) {
        Ok(removed) => Some(removed),
        Err(_) => None,
    };
    Ok((removed, graph.len()))
}
