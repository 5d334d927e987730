// A text that is being read, step by step.
ghost use Rattle.std.specs.Prelude.{◌≡◌, ◌≤◌, ℕ, List, IfOk, OnOk, length};
ghost use Rattle.include_units.specs.declared.types.FileAnswer.{FileAnswer as Answer};
ghost use Rattle.include_units.specs.declared.made.Made.{Made as Making};
ghost use Rattle.include_units.specs.declared.reading.Place.{Place as At};
ghost use Rattle.include_units.specs.declared.reading.Hand.TheVariants.{Holds, Seeks, Enters};
ghost use Rattle.include_units.specs.declared.conditionals.Open.{Open};
ghost use Rattle.include_units.specs.Cursors.{Ahead};
ghost use Rattle.include_units.specs.Inclusion.{led};
ghost use Rattle.include_units.specs.Units.{text_tokens};
ghost use Rattle.include_units.specs.Left as left;
ghost use Rattle.include_units.specs.Parted as parted;

use crate::conditionals::{Opens, unclosed};
use crate::cursor::Cursor;
use crate::inclusion::{Lead, Next, Search};
use crate::literals::open_where;
use crate::made::Made;
use crate::shared::PpTokens;
use crate::stop::Stop;
use crate::texts::{Part, Text};
use crate::told::{Told, held_at};
use crate::types::Want;
use crate::units::{entering, is_deep, read_part, stands_taken, tokens_of};
use std::alloc::{AllocError, Global};
use tok_data::TokId;
use uri_paths::Path;

// A text, and how deep texts may be entered there.
#[derive(Drop)]
pub(crate) struct Place {
    pub(crate) text: Text,
    pub(crate) depth: u8,
}

// What was begun, and may wait for an answer.
#[derive(Drop)]
pub(crate) enum Hand {
    Empty,
    // A part, whose open literals are shown.
    Holds(Part),
    // An `#include` whose text is looked for.
    Seeks(Search),
    // A text that is entered by this token.
    Enters(Text, TokId),
}

// A text that is being read.
#[derive(Drop)]
pub(crate) struct Frame {
    pub(crate) place: Place,
    pub(crate) rest: Cursor,
    // Its conditionals that are open.
    pub(crate) opens: Opens,
    pub(crate) hand: Hand,
}

// What a step comes to.
#[derive(Drop)]
pub(crate) enum Moved {
    On(Hand),
    // It waits for what is wanted.
    Stops(Hand, Want),
    // A text is entered there.
    Enters(Frame),
    // The text has ended.
    Ends,
}

// Shows the open literals of a part.
fn show_first(alloc: Global, part: &Part, opens: &Opens, made: &mut Made) -> Result<(), AllocError>
    ensures { OnOk result (made.new ≡ parted.shown_first part.now opens.now made.old) }
{
    match part {
        Part::Run(tokens) => open_where(alloc, opens.is_taken(), tokens.as_slice(), made),
        Part::Directive(_, tokens) => match tokens.as_slice().split_first() {
            Some((name, _)) => {
                let taken = stands_taken(name, opens);
                open_where(alloc, taken, tokens.as_slice(), made)
            }
            None => Ok(()),
        },
    }
}

// Takes the next part in hand; none where the text has ended.
fn take_part(
    alloc: Global,
    place: &Place,
    rest: &mut Cursor,
    opens: &Opens,
    made: &mut Made,
) -> Result<Option<Part>, AllocError>
    ensures { IfOk result (λ part. left.IsTaken place.now rest.old opens.now made.old part rest.new made.new) }
{
    match rest.take_part(alloc, &place.text.name)? {
        Some(part) => {
            show_first(alloc, &part, opens, made)?;
            Ok(Some(part))
        }
        None => {
            unclosed(alloc, opens, made)?;
            Ok(None)
        }
    }
}

fn begin_part(
    alloc: Global,
    place: &Place,
    rest: &mut Cursor,
    opens: &Opens,
    made: &mut Made,
) -> Result<Moved, AllocError>
    ensures { IfOk result (λ moved. (answers : List (List ℕ × Answer)) (folders : List (List ℕ)) → left.IsMoved answers folders place.now (left.text_left folders place.now rest.old opens.now made.old) rest.new opens.now made.new moved) }
{
    match take_part(alloc, place, rest, opens, made)? {
        Some(part) => Ok(Moved::On(Hand::Holds(part))),
        None => Ok(Moved::Ends),
    }
}

// Reads the part in hand.
fn read_in_hand(
    alloc: Global,
    folders: &[Path],
    files: &Told,
    part: Part,
    place: &Place,
    opens: &mut Opens,
    made: &mut Made,
) -> Result<Moved, AllocError>
    ensures { IfOk result (λ moved. (rest : Ahead) → left.IsMoved files.now folders.now place.now (left.hand_left folders.now place.now rest opens.old (Holds part) made.old) rest opens.new made.new moved) }
{
    let deep = is_deep(place.depth);
    match read_part(alloc, folders, files, deep, &place.text, &part, opens, made) {
        Ok(Next::Onward) => Ok(Moved::On(Hand::Empty)),
        Ok(Next::Seeks(search)) => Ok(Moved::On(Hand::Seeks(search))),
        Err(Stop::Need(want)) => Ok(Moved::Stops(Hand::Holds(part), want)),
        Err(Stop::NoMemory) => Err(AllocError),
    }
}

fn hand_by(lead: Lead) -> Hand
    ensures { (folders : List (List ℕ)) (place : At) (rest : Ahead) (opens : List Open) (made : Making) → left.hand_left folders place rest opens result made ≡ left.behind_lead folders place rest opens (led lead made) }
{
    match lead {
        Lead::On => Hand::Empty,
        Lead::Into(text, by) => Hand::Enters(text, by),
    }
}

// Looks at the next path of a search.
fn search_on(
    alloc: Global,
    files: &Told,
    search: Search,
    made: &mut Made,
) -> Result<Moved, AllocError>
    ensures { IfOk result (λ moved. (folders : List (List ℕ)) (place : At) (rest : Ahead) (opens : List Open) → left.IsMoved files.now folders place (left.hand_left folders place rest opens (Seeks search) made.old) rest opens made.new moved) }
{
    match search.path() {
        Some(path) => match held_at(files, path) {
            Some(true) => {
                let path = path.share()?;
                let lead = search.lead(alloc, Some(path), made)?;
                Ok(Moved::On(hand_by(lead)))
            }
            Some(false) => Ok(Moved::On(Hand::Seeks(search.behind()))),
            None => {
                let path = path.share()?;
                Ok(Moved::Stops(Hand::Seeks(search), Want::Exists(path)))
            }
        },
        None => {
            let lead = search.lead(alloc, None, made)?;
            Ok(Moved::On(hand_by(lead)))
        }
    }
}

// A text from its front on, in which texts may be entered so deep.
pub(crate) fn first_frame(alloc: Global, text: Text, tokens: PpTokens, depth: u8) -> Frame
    requires { length tokens ≤ 4290772992 }
    ensures { (folders : List (List ℕ)) (made : Making) → left.frame_left folders result made ≡ text_tokens folders depth text tokens made }
{
    Frame {
        place: Place { text, depth },
        rest: Cursor::at_first(tokens),
        opens: Opens::new(alloc),
        hand: Hand::Empty,
    }
}

// Enters a text, where texts may be entered.
fn enter_text(
    alloc: Global,
    files: &Told,
    text: Text,
    by: TokId,
    place: &Place,
    made: &mut Made,
) -> Result<Moved, AllocError>
    ensures { IfOk result (λ moved. (folders : List (List ℕ)) (rest : Ahead) (opens : List Open) → left.IsMoved files.now folders place.now (left.hand_left folders place.now rest opens (Enters text by) made.old) rest opens made.new moved) }
{
    if place.depth == 0 {
        return Ok(Moved::On(Hand::Empty));
    }
    match tokens_of(files, &text.source) {
        Ok(tokens) => {
            entering(&text, by, tokens.as_slice(), made)?;
            Ok(Moved::Enters(first_frame(alloc, text, tokens, place.depth - 1)))
        }
        Err(Stop::Need(want)) => Ok(Moved::Stops(Hand::Enters(text, by), want)),
        Err(Stop::NoMemory) => Err(AllocError),
    }
}

// One step on in a text.
pub(crate) fn move_on(
    alloc: Global,
    folders: &[Path],
    files: &Told,
    place: &Place,
    rest: &mut Cursor,
    opens: &mut Opens,
    hand: Hand,
    made: &mut Made,
) -> Result<Moved, AllocError>
    ensures { IfOk result (λ moved. left.IsMoved files.now folders.now place.now (left.hand_left folders.now place.now rest.old opens.old hand made.old) rest.new opens.new made.new moved) }
{
    match hand {
        Hand::Empty => {
            let moved = begin_part(alloc, place, rest, opens, made)?;
            Ok(moved)
        }
        Hand::Holds(part) => {
            let moved = read_in_hand(alloc, folders, files, part, place, opens, made)?;
            Ok(moved)
        }
        Hand::Seeks(search) => {
            let moved = search_on(alloc, files, search, made)?;
            Ok(moved)
        }
        Hand::Enters(text, by) => {
            let moved = enter_text(alloc, files, text, by, place, made)?;
            Ok(moved)
        }
    }
}
