// A constant expression (ISO C11 6.6) that is read from its front, without a deep recursion.
ghost use Rattle.std.specs.Prelude.{◌≡◌, IfOk};
ghost use Rattle.pp_cond.specs.Machine as spec;

use crate::frames::{Frame, Frames};
use crate::marks::Mark;
use crate::numbers::Number;
use crate::symbols::Symbol;
use std::alloc::{AllocError, Global};

// Where it is read.
#[derive(Clone, Copy, Debug, Drop)]
pub(crate) enum At {
    // Before an operand.
    Start,
    // Behind this operand.
    Behind(Number),
    // Behind a symbol that can't stand where it does.
    Wrong,
}

#[derive(Debug, Drop)]
pub(crate) struct Reader {
    frames: Frames,
    at: At,
}

fn waits(frames: Frames, frame: Frame) -> Result<Reader, AllocError>
    ensures { IfOk result (λ r. r ≡ spec.waits frame frames) }
{
    let frames = frames.with(frame)?;
    Ok(Reader {
        frames,
        at: At::Start,
    })
}

fn behind(frames: Frames, operand: Number) -> Reader
    ensures { result ≡ spec.behind operand frames }
{
    Reader {
        frames,
        at: At::Behind(operand),
    }
}

fn wrong(frames: Frames) -> Reader
    ensures { result ≡ spec.wrong frames }
{
    Reader {
        frames,
        at: At::Wrong,
    }
}

fn start_mark(frames: Frames, mark: Mark) -> Result<Reader, AllocError>
    ensures { IfOk result (λ r. r ≡ spec.start_mark mark frames) }
{
    if mark.is_prefix() {
        return waits(frames, Frame::Unary(mark));
    }
    match mark {
        Mark::OpenParen => waits(frames, Frame::Paren),
        _ => Ok(wrong(frames)),
    }
}

fn start(frames: Frames, symbol: Symbol) -> Result<Reader, AllocError>
    ensures { IfOk result (λ r. r ≡ spec.start symbol frames) }
{
    match symbol {
        Symbol::Constant(number) => Ok(behind(frames, number)),
        Symbol::Mark(mark) => start_mark(frames, mark),
    }
}

fn test(frames: Frames, operand: Number) -> Result<Reader, AllocError>
    ensures { IfOk result (λ r. r ≡ spec.test frames operand) }
{
    let (frames, operand) = frames.reduced(2, operand);
    waits(frames, Frame::Test(operand))
}

fn chosen(frames: Frames, frame: Frame, operand: Number) -> Result<Reader, AllocError>
    ensures { IfOk result (λ r. r ≡ spec.chosen frame frames operand) }
{
    match frame {
        Frame::Test(condition) => waits(frames, Frame::Choice(condition, operand)),
        _ => Ok(wrong(frames)),
    }
}

fn choice(frames: Frames, operand: Number) -> Result<Reader, AllocError>
    ensures { IfOk result (λ r. r ≡ spec.choice frames operand) }
{
    let (mut frames, operand) = frames.reduced(0, operand);
    match frames.pop() {
        Some(frame) => chosen(frames, frame, operand),
        None => Ok(wrong(frames)),
    }
}

fn comma(frames: Frames, operand: Number) -> Result<Reader, AllocError>
    ensures { IfOk result (λ r. r ≡ spec.comma frames operand) }
{
    let (frames, _operand) = frames.reduced(0, operand);
    waits(frames, Frame::Comma)
}

fn closed(frames: Frames, frame: Frame, operand: Number) -> Reader
    ensures { result ≡ spec.closed frame frames operand }
{
    match frame {
        Frame::Paren => behind(frames, operand),
        _ => wrong(frames),
    }
}

fn close(frames: Frames, operand: Number) -> Reader
    ensures { result ≡ spec.close frames operand }
{
    let (mut frames, operand) = frames.reduced(0, operand);
    match frames.pop() {
        Some(frame) => closed(frames, frame, operand),
        None => wrong(frames),
    }
}

fn operator(frames: Frames, operand: Number, mark: Mark) -> Result<Reader, AllocError>
    ensures { IfOk result (λ r. r ≡ spec.operator mark frames operand) }
{
    if mark.level() == 0 {
        return Ok(wrong(frames));
    }
    let (frames, operand) = frames.reduced(mark.level(), operand);
    waits(frames, Frame::Left(mark, operand))
}

fn go_on_mark(frames: Frames, operand: Number, mark: Mark) -> Result<Reader, AllocError>
    ensures { IfOk result (λ r. r ≡ spec.go_on_mark mark frames operand) }
{
    match mark {
        Mark::Question => test(frames, operand),
        Mark::Colon => choice(frames, operand),
        Mark::Comma => comma(frames, operand),
        Mark::CloseParen => Ok(close(frames, operand)),
        _ => operator(frames, operand, mark),
    }
}

fn go_on(frames: Frames, operand: Number, symbol: Symbol) -> Result<Reader, AllocError>
    ensures { IfOk result (λ r. r ≡ spec.go_on symbol frames operand) }
{
    match symbol {
        Symbol::Constant(_) => Ok(wrong(frames)),
        Symbol::Mark(mark) => go_on_mark(frames, operand, mark),
    }
}

fn ended(frames: Frames, operand: Number) -> Option<Number>
    ensures { result ≡ spec.ended frames operand }
{
    let (mut frames, operand) = frames.reduced(0, operand);
    match frames.pop() {
        Some(_) => None,
        None => Some(operand),
    }
}

impl Reader {
    // Before the first symbol.
    pub(crate) fn new(alloc: Global) -> Reader
        ensures { result ≡ spec.at_first }
    {
        Reader {
            frames: Frames::new(alloc),
            at: At::Start,
        }
    }

    // Behind a symbol more.
    pub(crate) fn with(self, symbol: Symbol) -> Result<Reader, AllocError>
        ensures { IfOk result (λ r. r ≡ spec.step symbol self) }
    {
        let Reader { frames, at } = self;
        match at {
            At::Start => start(frames, symbol),
            At::Behind(operand) => go_on(frames, operand, symbol),
            At::Wrong => Ok(wrong(frames)),
        }
    }

    // The value of the whole, where that is an expression.
    pub(crate) fn finished(self) -> Option<Number>
        ensures { result ≡ spec.finished self }
    {
        let Reader { frames, at } = self;
        match at {
            At::Behind(operand) => ended(frames, operand),
            At::Start | At::Wrong => None,
        }
    }
}
