// Long chains and wide rows of cells: a walk doesn't stand on the machine's stack. Prints the value and the number of runs
// after each edit. With words it makes other edits, for `bench/run` to time: a shape (`row`, `each`, `chain`, `all`), its
// length, how many edits, the distance of their inputs, the first value and how much it rises from edit to edit; or a shape
// (`piles`, `rows`), its level or first length, how many roots, and the same of the edits, each with a sweep.
#![tactic(auto)]

ghost use Rattle.std.specs.Prelude.{◌≡◌, ◌+◌, ◌<◌, IfOk, OnOk, length};

use query_core::Graph;
use query_tests::{Cell, CellRules, Edit, demand_all, edit_all, edit_under};
use std::alloc::{AllocError, Global};
use std::marker::Brand;
use std::sync::ledger::{Blank, Ledger};
use std::{env, io};
use steps::Steps;

static EDITS: [Edit; 12] = [
    Edit {
        input: 0,
        value: 4,
        demand: Cell::Chain(99_999),
    },
    Edit {
        input: 0,
        value: 5,
        demand: Cell::Chain(99_999),
    },
    Edit {
        input: 0,
        value: 6,
        demand: Cell::Chain(99_999),
    },
    Edit {
        input: 1,
        value: 2,
        demand: Cell::Wide(10_000),
    },
    Edit {
        input: 9_999,
        value: 9,
        demand: Cell::Wide(10_000),
    },
    Edit {
        input: 7,
        value: 1,
        demand: Cell::Wide(10_000),
    },
    Edit {
        input: 0,
        value: 8,
        demand: Cell::All(10_000),
    },
    Edit {
        input: 0,
        value: 9,
        demand: Cell::All(10_000),
    },
    Edit {
        input: 0,
        value: 10,
        demand: Cell::All(10_000),
    },
    Edit {
        input: 9_999,
        value: 6,
        demand: Cell::Each(10_000),
    },
    Edit {
        input: 9,
        value: 2,
        demand: Cell::Each(10_000),
    },
    Edit {
        input: 9,
        value: 3,
        demand: Cell::Each(10_000),
    },
];

/// What the words after the program's name ask for: the shape of the cells, and numbers.
#[derive(Drop)]
struct Asked {
    words: Vec<String>,
    numbers: Vec<u32>,
}

/// Reads the words; the first is the shape, and those that are no numbers aren't among these.
fn read_words(rt: &HostRuntime) -> io::Result<Asked> {
    let mut words = Vec::new(rt.alloc());
    let mut numbers = Vec::new(rt.alloc());
    for word in env::args(rt)?.skip(1) {
        if let Ok(number) = word.parse::<u32>() {
            numbers.push(number)?;
        }
        words.push(word)?;
    }
    Ok(Asked { words, numbers })
}

/// The cell of a shape over so many others.
fn cell_of(shape: &str, length: u32) -> Option<Cell> {
    match shape {
        "row" => Some(Cell::Wide(length)),
        "each" => Some(Cell::Each(length)),
        "chain" => Some(Cell::Chain(length)),
        "all" => Some(Cell::All(length)),
        _ => None,
    }
}

/// Edits one after the other: of each `span`-th input, to a value that rises by `rise`, with a demand of the cell.
fn edits_of(
    alloc: Global,
    demand: Cell,
    count: u32,
    span: u32,
    value: u32,
    rise: u32,
) -> Result<Vec<Edit>, AllocError>
    requires { count < 1000 }
    ensures { IfOk result (λ edits. length edits.items ≡ count) }
{
    let mut edits = Vec::new(alloc);
    for number in 0..count {
        edits.push(Edit {
            input: number.wrapping_mul(span),
            value: value.wrapping_add(number.wrapping_mul(rise)),
            demand,
        })?;
    }
    Ok(edits)
}

/// The cells of a shape that stand side by side: piles of a level, or rows of rising lengths.
fn roots_of(alloc: Global, shape: &str, length: u32, count: u32) -> Result<Vec<Cell>, AllocError> {
    let mut roots = Vec::new(alloc);
    for number in 0..count {
        let root = match shape {
            "piles" => Cell::Pile(length, number),
            _ => Cell::Wide(length.wrapping_add(number)),
        };
        roots.push(root)?;
    }
    Ok(roots)
}

/// Makes the edits, and prints what each demand gave.
fn show(rt: &HostRuntime, edits: &[Edit]) -> io::Result<()>
    requires { length edits.now < 1000 }
{
    let all = edit_all::<Brand>(rt.alloc(), Blank::new(1), edits)?;
    for shown in all.iter() {
        let value = shown.value;
        let runs = shown.runs;
        println!(rt; "{value} {runs}")?;
    }
    Ok(())
}

/// Makes the edits with a demand of all roots and a sweep after each, and then prints how many cells ran for each.
fn show_under<L: Ledger>(
    rt: &HostRuntime,
    graph: &mut Graph<CellRules>,
    roots: &[Cell],
    edits: &[Edit],
    steps: &mut Steps<L>,
) -> io::Result<()>
    requires { graph.old.revision + length edits.now < 2000 }
    ensures { OnOk result (graph.new.revision ≡ graph.old.revision + length edits.now) }
{
    let all = edit_under(rt.alloc(), graph, roots, edits, steps)?;
    for runs in all.iter() {
        println!(rt; "{runs}")?;
    }
    Ok(())
}

/// Demands the roots on a graph with no input set, and makes the edits. What the first one gave is printed before the others are made,
/// so that a reader can time these alone.
fn show_runs<L: Ledger>(
    rt: &HostRuntime,
    blank: Blank,
    roots: &[Cell],
    edits: &[Edit],
) -> io::Result<()>
    requires name { blank.name ≡ L.name }
    requires parts { blank.parts ≡ L.parts }
    requires some { 0 < L.parts }
    requires few { length edits.now < 1000 }
{
    let mut steps = Steps::<L>::open(blank);
    let mut graph = Graph::new(rt.alloc());
    demand_all(&mut graph, &CellRules {}, roots, &mut steps)?;
    let (first, others) = edits.split_at(edits.len().min(1));
    show_under(rt, &mut graph, roots, first, &mut steps)?;
    show_under(rt, &mut graph, roots, others, &mut steps)
}

/// Plays the edits that are asked for.
fn play(rt: &HostRuntime, shape: &str, numbers: &[u32]) -> io::Result<()> {
    match numbers {
        [length, count, span, value, rise] => match cell_of(shape, *length) {
            Some(cell) => {
                let count = (*count).min(999);
                let edits = edits_of(rt.alloc(), cell, count, *span, *value, *rise)?;
                show(rt, edits.as_slice())
            }
            None => Ok(()),
        },
        [length, roots, count, span, value, rise] => {
            let roots = roots_of(rt.alloc(), shape, *length, *roots)?;
            let count = (*count).min(999);
            let edits = edits_of(rt.alloc(), Cell::Top, count, *span, *value, *rise)?;
            show_runs::<Brand>(rt, Blank::new(1), roots.as_slice(), edits.as_slice())
        }
        _ => Ok(()),
    }
}

fn main(rt: HostRuntime) -> io::Result<()> {
    let asked = read_words(&rt)?;
    match asked.words.first() {
        Some(shape) => play(&rt, shape.as_str(), asked.numbers.as_slice()),
        None => show(&rt, &EDITS),
    }
}
