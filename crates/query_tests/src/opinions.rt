// Random lists of calls on the graph of the web, and on the plain one beside it: both must say the same.

ghost use Rattle.std.specs.Prelude.{◌≡◌, ◌+◌, ◌<◌, ◌^◌, IfOk, OnOk, true, nat_lt};
ghost use Rattle.query_core.specs.Changes.{IsFresh};
ghost use Rattle.query_core.specs.Soundness.{IsUnswept};
ghost use Rattle.query_tests.specs.Web.{web};

use crate::plain::Plain;
use crate::web::{Knot, WebRules};
use query_core::Graph;
use std::alloc::{AllocError, Global};
use std::sync::ledger::{Blank, Ledger};
use steps::Steps;

/// How many knots there are.
const KNOTS: u32 = 40;

/// Random numbers, the same for each seed.
#[derive(Drop)]
struct Random {
    state: u64,
}

impl Random {
    /// A number below the bound.
    fn below(&mut self, bound: u32) -> u32
        requires { 0 < bound }
        ensures { result < bound }
    {
        self.state = self
            .state
            .wrapping_mul(6_364_136_223_846_793_005)
            .wrapping_add(1_442_695_040_888_963_407);
        ((self.state >> 33) % u64::from(bound)) as u32
    }
}

/// What was compared: how many turns both agreed in, how many keys ran in these, how many records went, and how many demands were refused.
#[derive(Clone, Copy, Debug, PartialEq, Eq, Drop)]
pub struct Opinions {
    pub agreed: u32,
    pub ran: usize,
    pub removed: usize,
    pub refused: u32,
}

/// What a turn gave: how many keys ran, how many records went, and how many demands were refused.
#[derive(Clone, Copy, Drop)]
struct Taken {
    ran: usize,
    removed: usize,
    refused: u32,
}

/// The rules, with no refusal.
fn willing() -> WebRules {
    WebRules { refused: KNOTS }
}

/// Sets an input; where memory is refused, once more.
fn set_twice(graph: &mut Graph<WebRules>, key: Knot, value: u32) -> Result<(), AllocError>
    requires input { nat_lt key.number 8 ≡ true }
    requires fresh { IsFresh web graph.old }
    ensures fresh { IsFresh web graph.new }
    ensures unswept { IsUnswept web graph.old → IsUnswept web graph.new }
    ensures revision { graph.new.revision ≡ graph.old.revision }
{
    match graph.set_input(key, value) {
        Ok(()) => Ok(()),
        Err(_) => graph.set_input(key, value),
    }
}

/// Takes an input's value away, after it was refused once.
fn drop_twice(graph: &mut Graph<WebRules>, number: u32) -> Result<(), AllocError>
    requires input { nat_lt number 8 ≡ true }
    requires fresh { IsFresh web graph.old }
    ensures fresh { IsFresh web graph.new }
    ensures unswept { IsUnswept web graph.old → IsUnswept web graph.new }
    ensures revision { graph.new.revision ≡ graph.old.revision }
{
    let refused = WebRules { refused: number };
    match graph.drop_input(&refused, &Knot { number }) {
        Ok(()) => Ok(()),
        Err(_) => graph.drop_input(&willing(), &Knot { number }),
    }
}

/// Sets an input in both, or takes its value away.
fn edit(
    graph: &mut Graph<WebRules>,
    plain: &mut Plain,
    random: &mut Random,
) -> Result<(), AllocError>
    requires { IsFresh web graph.old }
    ensures fresh { IsFresh web graph.new }
    ensures unswept { IsUnswept web graph.old → IsUnswept web graph.new }
    ensures revision { graph.new.revision ≡ graph.old.revision }
{
    let number = random.below(8);
    let value = random.below(4);
    if value == 3 {
        drop_twice(graph, number)?;
        return plain.set_input(number, 0);
    }
    set_twice(graph, Knot { number }, value)?;
    plain.set_input(number, value)
}

/// Up to three edits, in a new revision of both.
fn edits(
    graph: &mut Graph<WebRules>,
    plain: &mut Plain,
    random: &mut Random,
) -> Result<(), AllocError>
    requires { graph.old.revision < 2 ^ 62 }
    ensures unswept { IsUnswept web graph.new }
    ensures revision { graph.new.revision ≡ graph.old.revision + 1 }
{
    graph.next_revision();
    plain.next_revision();
    let count = random.below(4);
    for _ in 0..count {
        edit(graph, plain, random)?;
    }
    Ok(())
}

/// Whether both ran the same and have as many records.
fn agree(graph: &Graph<WebRules>, plain: &Plain) -> bool {
    if graph.len() != plain.len() || graph.runs().len() != plain.runs().len() {
        return false;
    }
    graph
        .runs()
        .iter()
        .zip(plain.runs().iter())
        .all(|(key, number)| key.number == *number)
}

/// The value of a knot, and how often it was refused: where a run is, the demand is made once more.
fn demand_twice<L: Ledger>(
    graph: &mut Graph<WebRules>,
    number: u32,
    refused: u32,
    steps: &mut Steps<L>,
) -> Result<(u32, u32), AllocError>
    requires { IsUnswept web graph.old }
    ensures unswept { IsUnswept web graph.new }
    ensures revision { graph.new.revision ≡ graph.old.revision }
{
    match graph.demand(&WebRules { refused }, Knot { number }, steps) {
        Ok(id) => Ok((*graph.value(id), 0)),
        Err(_) => {
            let id = graph.demand(&willing(), Knot { number }, steps)?;
            Ok((*graph.value(id), 1))
        }
    }
}

/// Up to three demands of both, in half of which the run of a knot is refused: how many were, or `None` where the two don't give the same.
fn demands<L: Ledger>(
    graph: &mut Graph<WebRules>,
    plain: &mut Plain,
    random: &mut Random,
    steps: &mut Steps<L>,
) -> Result<Option<u32>, AllocError>
    requires { IsUnswept web graph.old }
    ensures { graph.new.revision ≡ graph.old.revision }
{
    let count = random.below(4);
    let mut all = 0;
    for _ in 0..count {
        let number = random.below(KNOTS);
        let refused = random.below(2 * KNOTS);
        let (value, times) = demand_twice(graph, number, refused, steps)?;
        if value != plain.demand(number)? {
            return Ok(None);
        }
        if !agree(graph, plain) {
            return Ok(None);
        }
        all = times.saturating_add(all);
    }
    Ok(Some(all))
}

/// Up to two random knots.
fn some_roots(alloc: Global, random: &mut Random) -> Result<Vec<Knot>, AllocError> {
    let mut roots = Vec::new(alloc);
    let count = random.below(3);
    for _ in 0..count {
        let number = random.below(KNOTS);
        roots.push(Knot { number })?;
    }
    Ok(roots)
}

/// Sweeps with these roots; where memory is refused, once more.
fn sweep_twice(graph: &mut Graph<WebRules>, roots: &[Knot]) -> Result<usize, AllocError>
    ensures { graph.new.revision ≡ graph.old.revision }
{
    match graph.sweep(roots) {
        Ok(removed) => Ok(removed),
        Err(_) => graph.sweep(roots),
    }
}

/// Sweeps both with the same roots: how many records went, or `None` where the two don't agree.
fn sweep_both(
    graph: &mut Graph<WebRules>,
    plain: &mut Plain,
    roots: &[Knot],
) -> Result<Option<usize>, AllocError>
    ensures { graph.new.revision ≡ graph.old.revision }
{
    let removed = sweep_twice(graph, roots)?;
    if removed != plain.sweep(roots, KNOTS)? || !agree(graph, plain) {
        return Ok(None);
    }
    Ok(Some(removed))
}

/// A revision of both: edits, demands, and in one of three a sweep; `None` where the two don't agree.
fn take_turn<L: Ledger>(
    alloc: Global,
    graph: &mut Graph<WebRules>,
    plain: &mut Plain,
    random: &mut Random,
    steps: &mut Steps<L>,
) -> Result<Option<Taken>, AllocError>
    requires { graph.old.revision < 2 ^ 62 }
    ensures { OnOk result (graph.new.revision ≡ graph.old.revision + 1) }
{
    edits(graph, plain, random)?;
    let Some(refused) = demands(graph, plain, random, steps)? else {
        return Ok(None);
    };
    let ran = graph.runs().len();
    if random.below(3) > 0 {
        let removed = 0;
        return Ok(Some(Taken {
            ran,
            removed,
            refused,
        }));
    }
    let roots = some_roots(alloc, random)?;
    match sweep_both(graph, plain, &roots)? {
        Some(removed) => Ok(Some(Taken {
            ran,
            removed,
            refused,
        })),
        None => Ok(None),
    }
}

/// So many turns from a seed, or those before the first in which the two don't agree.
pub fn compare<L: Ledger>(
    alloc: Global,
    blank: Blank,
    seed: u64,
    turns: u32,
) -> Result<Opinions, AllocError>
    requires name { blank.name ≡ L.name }
    requires parts { blank.parts ≡ L.parts }
    requires some { 0 < L.parts }
{
    let mut steps = Steps::<L>::open(blank);
    let mut graph = Graph::new(alloc);
    let mut plain = Plain::new(alloc);
    let mut random = Random { state: seed };
    let mut all = Opinions {
        agreed: 0,
        ran: 0,
        removed: 0,
        refused: 0,
    };
    for _ in 0..turns {
        let Some(taken) = take_turn(alloc, &mut graph, &mut plain, &mut random, &mut steps)? else {
            return Ok(all);
        };
        all = Opinions {
            agreed: all.agreed.saturating_add(1),
            ran: all.ran.saturating_add(taken.ran),
            removed: all.removed.saturating_add(taken.removed),
            refused: all.refused.saturating_add(taken.refused),
        };
    }
    Ok(all)
}
