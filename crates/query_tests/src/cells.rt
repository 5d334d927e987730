// Cells over halved inputs: a diamond, a chain, a row over many inputs and a row over one. An edit that leaves the half of an input stops there.

ghost use Rattle.std.specs.Prelude.{◌≡◌, ◌+◌, ◌-◌, ◌<◌, ◌≤◌, [], ◌∷◌, drop, length, IfOk, IfSome, None, false, ◌==◌, if◌then◌else◌, is_some};
ghost use Rattle.std.specs.Map.{lookup};
ghost use Rattle.query_tests.specs.declared.cells.Cell.TheVariants.{Half, Chain, Each};
ghost use Rattle.query_core.specs.Queries.{ticks};
ghost use Rattle.query_tests.specs.Cells.{cells, reads_of, rest_of, final, halves, shares, under, last_under, answer_or_zero, same_cell, one_by_one, step_with, AreAnswered, has_read_cell};
ghost use Rattle.query_tests.specs.CellLaws.{cells_lawful, same_cell_is};
ghost use Rattle.query_tests.specs.PickLaws.{same_number_is};

use query_core::{Answers, Keys, Rules, Step, TryCopy};
use std::alloc::{AllocError, Global};
use std::sync::ledger::Ledger;
use steps::Steps;

/// The cells.
#[derive(Clone, Copy, PartialEq, Eq, Hash, Drop)]
pub enum Cell {
    /// An input.
    Input(u32),
    /// Half of the input of the same number.
    Half(u32),
    /// As the cell before it; the first is the half of input 0.
    Chain(u32),
    /// Reads so many halves, and is the last of them.
    Wide(u32),
    /// Reads so many halves, one after the other, and is the last of them.
    Each(u32),
    /// The half of input 0, which all of these share.
    Share(u32),
    /// Reads so many shares, and is the last of them.
    All(u32),
    /// At this level, and of this number there: reads the two of the level below that stand under it, and is the second of them. At level 0
    /// it is the half of its number, and so are those of 2^30 and more.
    Pile(u32, u32),
    /// One side of the diamond, over the half of input 0.
    Left,
    /// The other side.
    Right,
    /// Reads both sides.
    Top,
}

impl TryCopy for Cell {
    fn try_copy(&self) -> Result<Self, AllocError> {
        Ok(*self)
    }
}

/// The rules of the cells.
#[derive(Drop)]
pub struct CellRules {}

/// The first halves.
fn first_halves(alloc: Global, number: u32) -> Result<Vec<Cell>, AllocError>
    ensures { IfOk result (λ v. v.items ≡ halves number) }
{
    let mut cells = Vec::new(alloc);
    for i in 0..number {
        cells.push(Cell::Half(i))?;
    }
    Ok(cells)
}

/// The first shares.
fn first_shares(alloc: Global, number: u32) -> Result<Vec<Cell>, AllocError>
    ensures { IfOk result (λ v. v.items ≡ shares number) }
{
    let mut cells = Vec::new(alloc);
    for i in 0..number {
        cells.push(Cell::Share(i))?;
    }
    Ok(cells)
}

/// The cell that a chain's cell reads.
fn before(number: u32) -> Cell
    ensures { result ≡ (if number == 0 then Half 0 else Chain (number - 1)) }
{
    if number == 0 {
        Cell::Half(0)
    } else {
        Cell::Chain(number - 1)
    }
}

/// What a pile reads.
fn under(alloc: Global, level: u32, number: u32) -> Result<Vec<Cell>, AllocError>
    ensures { IfOk result (λ v. v.items ≡ under level number) }
{
    if level == 0 || number >= 1_073_741_824 {
        return one(alloc, Cell::Half(number));
    }
    let mut cells = one(alloc, Cell::Pile(level - 1, 2 * number))?;
    cells.push(Cell::Pile(level - 1, 2 * number + 1))?;
    Ok(cells)
}

/// The last cell that a pile reads.
fn last_under(level: u32, number: u32) -> Cell
    ensures { result ≡ last_under level number }
{
    if level == 0 || number >= 1_073_741_824 {
        return Cell::Half(number);
    }
    Cell::Pile(level - 1, 2 * number + 1)
}

/// One cell, as a list.
fn one(alloc: Global, cell: Cell) -> Result<Vec<Cell>, AllocError>
    ensures { IfOk result (λ v. v.items ≡ cell ∷ []) }
{
    let mut cells = Vec::new(alloc);
    cells.push(cell)?;
    Ok(cells)
}

/// What a cell reads.
fn reads(alloc: Global, cell: Cell) -> Result<Vec<Cell>, AllocError>
    ensures { IfOk result (λ v. v.items ≡ reads_of cell) }
{
    match cell {
        Cell::Input(_) => Ok(Vec::new(alloc)),
        Cell::Half(number) => one(alloc, Cell::Input(number)),
        Cell::Chain(number) => one(alloc, before(number)),
        Cell::Wide(number) | Cell::Each(number) => first_halves(alloc, number),
        Cell::Share(_) => one(alloc, Cell::Half(0)),
        Cell::All(number) => first_shares(alloc, number),
        Cell::Pile(level, number) => under(alloc, level, number),
        Cell::Left => one(alloc, Cell::Half(0)),
        Cell::Right => one(alloc, Cell::Half(0)),
        Cell::Top => {
            let mut cells = one(alloc, Cell::Left)?;
            cells.push(Cell::Right)?;
            Ok(cells)
        }
    }
}

/// Whether the cell is answered.
fn is_answered(answers: &Answers<'_, Cell, u32>, cell: &Cell) -> bool
    ensures { result ≡ is_some (lookup (same_cell cell.now) answers.now) }
{
    answers.get(cell).is_some()
}

/// The place of the first cell that isn't answered, or the length.
fn first_missing(reads: &[Cell], answers: &Answers<'_, Cell, u32>) -> usize
    ensures within { result ≤ length reads.now }
    ensures rest { drop result reads.now ≡ rest_of answers.now reads.now }
{
    for (place, cell) in reads.iter().enumerate() {
        if !is_answered(answers, cell) {
            return place;
        }
    }
    reads.len()
}

/// The answer of a cell, or 0.
fn answer(answers: &Answers<'_, Cell, u32>, cell: Cell) -> u32
    ensures { result ≡ answer_or_zero answers.now cell }
{
    match answers.get(&cell) {
        Some(value) => *value,
        None => 0,
    }
}

/// The value of a cell whose reads are answered.
fn value(cell: Cell, answers: &Answers<'_, Cell, u32>) -> u32
    ensures { result ≡ final cell answers.now }
{
    match cell {
        Cell::Input(_) => 0,
        Cell::Half(number) => answer(answers, Cell::Input(number)) / 2,
        Cell::Chain(number) => answer(answers, before(number)),
        Cell::Wide(number) | Cell::Each(number) => {
            if number == 0 {
                0
            } else {
                answer(answers, Cell::Half(number - 1))
            }
        }
        Cell::Share(_) => answer(answers, Cell::Half(0)),
        Cell::All(number) => {
            if number == 0 {
                0
            } else {
                answer(answers, Cell::Share(number - 1))
            }
        }
        Cell::Pile(level, number) => answer(answers, last_under(level, number)),
        Cell::Left => answer(answers, Cell::Half(0)),
        Cell::Right => answer(answers, Cell::Half(0)),
        Cell::Top => answer(answers, Cell::Right),
    }
}

/// How many halves a cell reads that asks for one after the other.
fn length_of(cell: Cell) -> Option<u32>
    ensures some { IfSome result (λ number. cell ≡ Each number) }
    ensures none { result ≡ None → one_by_one cell ≡ false }
{
    match cell {
        Cell::Each(number) => Some(number),
        Cell::Input(_) | Cell::Half(_) | Cell::Chain(_) | Cell::Wide(_) => None,
        Cell::Share(_) | Cell::All(_) | Cell::Pile(_, _) => None,
        Cell::Left | Cell::Right | Cell::Top => None,
    }
}

/// Goes past the halves that are answered, from those on that the run knows.
fn go_past(number: u32, run: &mut u32, answers: &Answers<'_, Cell, u32>)
    requires { AreAnswered answers.now run.old }
    ensures answered { AreAnswered answers.now run.new }
    ensures open { run.new < number → is_some (lookup (same_cell (Half run.new)) answers.now) ≡ false }
{
    'halves: while *run < number {
        if !is_answered(answers, &Cell::Half(*run)) {
            return;
        }
        *run += 1;
    }
}

/// The next step of a cell that asks for one half after the other.
fn next_half<L: Ledger>(
    alloc: Global,
    number: u32,
    run: &mut u32,
    answers: &Answers<'_, Cell, u32>,
    steps: &mut Steps<L>,
) -> Result<Step<Cell, u32>, AllocError>
    requires { AreAnswered answers.now run.old }
    ensures step { IfOk result (λ s. s ≡ cells.step (Each number) answers.now) }
    ensures read { AreAnswered answers.now run.new }
    ensures ticks { steps.new ≡ steps.old + ticks result }
{
    go_past(number, run, answers);
    if *run < number {
        let next = one(alloc, Cell::Half(*run))?;
        return Ok(Step::Ask(Keys::from_vec(next)));
    }
    steps.tick();
    Ok(Step::Done(value(Cell::Each(number), answers)))
}

/// The next step of a cell that asks for all at once.
fn next_reads<L: Ledger>(
    alloc: Global,
    cell: Cell,
    answers: &Answers<'_, Cell, u32>,
    steps: &mut Steps<L>,
) -> Result<Step<Cell, u32>, AllocError>
    ensures step { IfOk result (λ s. s ≡ step_with cell answers.now (rest_of answers.now (reads_of cell))) }
    ensures ticks { steps.new ≡ steps.old + ticks result }
{
    let mut reads = reads(alloc, cell)?;
    let missing = first_missing(&reads, answers);
    if missing < reads.len() {
        let rest = reads.split_off(missing)?;
        return Ok(Step::Ask(Keys::from_vec(rest)));
    }
    steps.tick();
    Ok(Step::Done(value(cell, answers)))
}

impl Rules for CellRules {
    type Key = Cell;

    type Value = u32;

    type Run = u32;

    ghost queries = { cells };

    ghost has_read = { has_read_cell };

    fn is_input(&self, key: &Cell) -> bool {
        match key {
            Cell::Input(_) => true,
            Cell::Half(_) | Cell::Chain(_) | Cell::Wide(_) | Cell::Each(_) => false,
            Cell::Share(_) | Cell::All(_) | Cell::Pile(_, _) => false,
            Cell::Left | Cell::Right | Cell::Top => false,
        }
    }

    fn unset(&self, _alloc: Global, _key: &Cell) -> Result<u32, AllocError> {
        Ok(0)
    }

    fn begin(&self, _alloc: Global, _key: &Cell) -> Result<u32, AllocError> {
        Ok(0)
    }

    fn next<L: Ledger>(
        &self,
        alloc: Global,
        key: &Cell,
        run: &mut u32,
        answers: &Answers<'_, Cell, u32>,
        steps: &mut Steps<L>,
    ) -> Result<Step<Cell, u32>, AllocError> {
        match length_of(*key) {
            Some(number) => next_half(alloc, number, run, answers, steps),
            None => next_reads(alloc, *key, answers, steps),
        }
    }

    ghost same_keys = { same_cell_is };

    ghost same_values = { same_number_is };

    ghost lawful = { cells_lawful };
}
