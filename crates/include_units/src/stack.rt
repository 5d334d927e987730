// A unit that is being read, text by text.
ghost use Rattle.std.specs.Prelude.{◌≡◌, ◌≤◌, ◌∷◌, [], ℕ, List, IfOk, Some, length};
ghost use Rattle.include_units.specs.declared.made.Made.{Made as Making};
ghost use Rattle.include_units.specs.Left as left;
ghost use Rattle.include_units.specs.Stack as stack;
ghost use Rattle.include_units.specs.Units.{command_text, command_of, read_text, unit_tokens};

use crate::frames::Frames;
use crate::made::Made;
use crate::own::OwnText;
use crate::reading::{Frame, Hand, Moved, first_frame, move_on};
use crate::stop::Stop;
use crate::texts::{Source, Text};
use crate::told::Told;
use crate::types::Want;
use crate::units::{command_text, file_of, tokens_of};
use project_conf::{Define, UnitConf};
use shared_text::Name;
use std::alloc::{AllocError, Global};
use std::mem;
use uri_paths::Path;

// The texts that are entered, the unit's own text until it is, and what is made so far.
#[derive(Drop)]
pub(crate) struct Reading {
    pub(crate) frames: Frames,
    pub(crate) later: Option<Text>,
    pub(crate) made: Made,
}

// What a step comes to.
#[derive(Drop)]
pub(crate) enum Step {
    On,
    Need(Want),
    Done,
}

// `<command>`, from its front on.
fn command_frame(alloc: Global, defines: &[Define]) -> Result<Frame, AllocError>
    requires { length (command_text defines.now) ≤ 4290772992 }
    ensures { IfOk result (λ frame. (folders : List (List ℕ)) (made : Making) → left.frame_left folders frame made ≡ read_text folders (command_of defines.now) made) }
{
    let text = command_text(alloc, defines)?;
    let own = OwnText::from_str(alloc, text.as_str())?;
    let tokens = own.tokens().share()?;
    let name = Name::from_str(alloc, "<command>")?;
    let text = Text {
        name,
        source: Source::Own(own),
    };
    Ok(first_frame(alloc, text, tokens, 200))
}

// At the front of a unit.
pub(crate) fn at_first(alloc: Global, conf: &UnitConf) -> Result<Reading, AllocError>
    requires { length (command_text conf.now.defines) ≤ 4290772992 }
    ensures { IfOk result (λ reading. stack.reading_left conf.now.includes reading ≡ unit_tokens conf.now) }
{
    let command = command_frame(alloc, conf.defines.as_slice())?;
    let mut frames = Frames::new(alloc);
    frames.push(command)?;
    let file = file_of(alloc, &conf.file)?;
    let made = Made::at_first(alloc, &conf.file)?;
    Ok(Reading {
        frames,
        later: Some(file),
        made,
    })
}

// A step in the innermost text.
fn step_in(
    alloc: Global,
    folders: &[Path],
    files: &Told,
    frame: Frame,
    reading: &mut Reading,
) -> Result<Step, AllocError>
    ensures { IfOk result (λ step. stack.IsStep files.now folders.now (left.stack_left folders.now (frame ∷ reading.old.frames) reading.old.later reading.old.made) reading.new step) }
{
    let Frame {
        place,
        rest,
        opens,
        hand,
    } = frame;
    let mut rest = rest;
    let mut opens = opens;
    let moved = move_on(
        alloc,
        folders,
        files,
        &place,
        &mut rest,
        &mut opens,
        hand,
        &mut reading.made,
    )?;
    match moved {
        Moved::On(hand) => {
            reading.frames.push(Frame {
                place,
                rest,
                opens,
                hand,
            })?;
            Ok(Step::On)
        }
        Moved::Stops(hand, want) => {
            reading.frames.push(Frame {
                place,
                rest,
                opens,
                hand,
            })?;
            Ok(Step::Need(want))
        }
        Moved::Enters(inner) => {
            let Ok(()) = reading.frames.push(Frame {
                place,
                rest,
                opens,
                hand: Hand::Empty,
            })
            else {
                drop(inner);
                return Err(AllocError);
            };
            reading.frames.push(inner)?;
            Ok(Step::On)
        }
        Moved::Ends => Ok(Step::On),
    }
}

// The unit's own text isn't entered yet.
fn put_back(text: Text, reading: &mut Reading)
    ensures { reading.new ≡ record reading.old { later = Some text } }
{
    reading.later = Some(text);
}

// A step where no text is entered: the unit's own text is, or all is read.
fn step_out(alloc: Global, files: &Told, reading: &mut Reading) -> Result<Step, AllocError>
    requires { reading.old.frames ≡ [] }
    ensures { IfOk result (λ step. (folders : List (List ℕ)) → stack.IsStep files.now folders (stack.reading_left folders reading.old) reading.new step) }
{
    match mem::replace(&mut reading.later, None) {
        Some(text) => match tokens_of(files, &text.source) {
            Ok(tokens) => {
                reading.frames.push(first_frame(alloc, text, tokens, 200))?;
                Ok(Step::On)
            }
            Err(Stop::Need(want)) => {
                put_back(text, reading);
                Ok(Step::Need(want))
            }
            Err(Stop::NoMemory) => Err(AllocError),
        },
        None => Ok(Step::Done),
    }
}

fn one_step(
    alloc: Global,
    folders: &[Path],
    files: &Told,
    reading: &mut Reading,
) -> Result<Step, AllocError>
    ensures { IfOk result (λ step. stack.IsStep files.now folders.now (stack.reading_left folders.now reading.old) reading.new step) }
{
    match reading.frames.pop() {
        Some(frame) => {
            let step = step_in(alloc, folders, files, frame, reading)?;
            Ok(step)
        }
        None => {
            let step = step_out(alloc, files, reading)?;
            Ok(step)
        }
    }
}

// Reads on until something is needed, or all is read.
pub(crate) fn read_on(
    alloc: Global,
    folders: &[Path],
    files: &Told,
    reading: &mut Reading,
) -> Result<Option<Want>, AllocError>
    ensures { IfOk result (λ want. stack.IsStopped files.now folders.now (stack.reading_left folders.now reading.old) reading.new want) }
{
    'steps: for _ in 0..u64::MAX {
        let step = one_step(alloc, folders, files, reading)?;
        match step {
            Step::On => continue,
            Step::Need(want) => return Ok(Some(want)),
            Step::Done => return Ok(None),
        }
    }
    Err(AllocError)
}
