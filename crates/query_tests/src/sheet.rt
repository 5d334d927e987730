// The cells, on a graph: edits and demands, and what each demand gave.

ghost use Rattle.std.specs.Prelude.{◌≡◌, ◌+◌, ◌<◌, ◌^◌, OnOk, length};

use crate::cells::{Cell, CellRules};
use crate::several::demand_all;
use query_core::Graph;
use std::alloc::{AllocError, Global};
use std::sync::ledger::{Blank, Ledger};
use steps::Steps;

/// An edit of an input, and the cell that is demanded after it.
#[derive(Clone, Copy, Drop)]
pub struct Edit {
    pub input: u32,
    pub value: u32,
    pub demand: Cell,
}

/// What a demand gave: the value of the cell, and how many cells ran.
#[derive(Clone, Copy, Debug, PartialEq, Eq, Drop)]
pub struct Shown {
    pub value: u32,
    pub runs: usize,
}

/// What a sweep between two times of the same edits gave: how many records it removed, how many it left, and what the edits gave then.
#[derive(Debug, Drop)]
pub struct Swept {
    pub removed: usize,
    pub left: usize,
    pub again: Vec<Shown>,
}

/// Begins a revision, sets the input and demands the cell.
fn make_edit<L: Ledger>(
    graph: &mut Graph<CellRules>,
    edit: &Edit,
    steps: &mut Steps<L>,
) -> Result<Shown, AllocError>
    requires { graph.old.revision < 2 ^ 62 }
    ensures { graph.new.revision ≡ graph.old.revision + 1 }
{
    graph.next_revision();
    graph.set_input(Cell::Input(edit.input), edit.value)?;
    let id = graph.demand(&CellRules {}, edit.demand, steps)?;
    Ok(Shown {
        value: *graph.value(id),
        runs: graph.runs().len(),
    })
}

/// Makes the edits one after the other.
fn make_edits<L: Ledger>(
    alloc: Global,
    graph: &mut Graph<CellRules>,
    edits: &[Edit],
    steps: &mut Steps<L>,
) -> Result<Vec<Shown>, AllocError>
    requires { graph.old.revision + length edits.now < 2000 }
    ensures { OnOk result (graph.new.revision ≡ graph.old.revision + length edits.now) }
{
    let mut shown = Vec::new(alloc);
    for next in edits {
        let one = make_edit(graph, next, steps)?;
        shown.push(one)?;
    }
    Ok(shown)
}

/// Makes the edits one after the other, on a graph with no input set.
pub fn edit_all<L: Ledger>(
    alloc: Global,
    blank: Blank,
    edits: &[Edit],
) -> Result<Vec<Shown>, AllocError>
    requires name { blank.name ≡ L.name }
    requires parts { blank.parts ≡ L.parts }
    requires some { 0 < L.parts }
    requires few { length edits.now < 1000 }
{
    let mut steps = Steps::<L>::open(blank);
    let mut graph = Graph::new(alloc);
    make_edits(alloc, &mut graph, edits, &mut steps)
}

/// Begins a revision, sets the input, demands the roots and sweeps: how many cells ran.
fn edit_once<L: Ledger>(
    graph: &mut Graph<CellRules>,
    edit: &Edit,
    roots: &[Cell],
    steps: &mut Steps<L>,
) -> Result<usize, AllocError>
    requires { graph.old.revision < 2 ^ 62 }
    ensures { OnOk result (graph.new.revision ≡ graph.old.revision + 1) }
{
    graph.next_revision();
    graph.set_input(Cell::Input(edit.input), edit.value)?;
    demand_all(graph, &CellRules {}, roots, steps)?;
    let runs = graph.runs().len();
    graph.sweep(roots)?;
    Ok(runs)
}

/// Makes the edits one after the other, each with a demand of all roots and a sweep, and gives how many cells ran for each edit; what an edit
/// says to demand is not asked.
pub fn edit_under<L: Ledger>(
    alloc: Global,
    graph: &mut Graph<CellRules>,
    roots: &[Cell],
    edits: &[Edit],
    steps: &mut Steps<L>,
) -> Result<Vec<usize>, AllocError>
    requires { graph.old.revision + length edits.now < 2000 }
    ensures { OnOk result (graph.new.revision ≡ graph.old.revision + length edits.now) }
{
    let mut runs = Vec::new(alloc);
    for next in edits {
        let one = edit_once(graph, next, roots, steps)?;
        runs.push(one)?;
    }
    Ok(runs)
}

/// Sets the first input and demands these cells in one revision: how many of them and of what they read ran.
pub fn demand_together<L: Ledger>(
    alloc: Global,
    blank: Blank,
    roots: &[Cell],
) -> Result<usize, AllocError>
    requires name { blank.name ≡ L.name }
    requires parts { blank.parts ≡ L.parts }
    requires some { 0 < L.parts }
{
    let mut steps = Steps::<L>::open(blank);
    let mut graph = Graph::new(alloc);
    graph.set_input(Cell::Input(0), 4)?;
    demand_all(&mut graph, &CellRules {}, roots, &mut steps)?;
    Ok(graph.runs().len())
}

/// Makes the edits on a graph with no input set, sweeps with these roots, and makes the edits again.
pub fn sweep_after<L: Ledger>(
    alloc: Global,
    blank: Blank,
    edits: &[Edit],
    roots: &[Cell],
) -> Result<Swept, AllocError>
    requires name { blank.name ≡ L.name }
    requires parts { blank.parts ≡ L.parts }
    requires some { 0 < L.parts }
    requires few { length edits.now < 1000 }
{
    let mut steps = Steps::<L>::open(blank);
    let mut graph = Graph::new(alloc);
    make_edits(alloc, &mut graph, edits, &mut steps)?;
    let removed = graph.sweep(roots)?;
    let left = graph.len();
    let again = make_edits(alloc, &mut graph, edits, &mut steps)?;
    Ok(Swept {
        removed,
        left,
        again,
    })
}
