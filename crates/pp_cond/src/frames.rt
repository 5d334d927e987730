// What an expression waits for that is read from its front.
ghost use Rattle.std.specs.Prelude.{◌≡◌, ◌∷◌, [], IfOk};
ghost use Rattle.pp_cond.specs.Frames as spec;

use crate::marks::Mark;
use crate::numbers::{Number, binary, choice, comma, unary};
use std::alloc::{AllocError, Global};
use std::collections::VecDeque;
use std::marker::Model;

#[derive(Clone, Copy, Debug, Drop)]
pub(crate) enum Frame {
    // A unary operator, for its operand.
    Unary(Mark),
    // A binary operator with its left operand, for the right one.
    Left(Mark, Number),
    // A condition and `?`, for the expression up to the `:`.
    Test(Number),
    // A condition and what stands between `?` and `:`, for what stands behind.
    Choice(Number, Number),
    // A left operand and a comma, for the right operand.
    Comma,
    // An open parenthesis, for the expression in it.
    Paren,
}

impl Frame {
    // What it waits for ends before an operator of this level.
    fn binds(self, level: u8) -> bool
        ensures { result ≡ spec.binds level self }
    {
        match self {
            Frame::Unary(_) => level <= 12,
            Frame::Left(mark, _) => level <= mark.level(),
            Frame::Choice(_, _) => level <= 1,
            Frame::Comma => level == 0,
            Frame::Test(_) | Frame::Paren => false,
        }
    }

    // What it waited for is there.
    fn completed(self, operand: Number) -> Number
        ensures { result ≡ spec.completed self operand }
    {
        match self {
            Frame::Unary(mark) => unary(mark, operand),
            Frame::Left(mark, left) => binary(mark, left, operand),
            Frame::Choice(condition, first) => choice(condition, first, operand),
            Frame::Comma => comma(operand),
            Frame::Test(_) | Frame::Paren => operand,
        }
    }
}

// Frames, the innermost first.
#[derive(Debug, Drop)]
pub(crate) struct Frames {
    items: VecDeque<Frame>,
}

impl Model for Frames {
    ghost use Rattle.std.specs.Prelude.{List};
    ghost use Rattle.pp_cond.specs.declared.frames.Frame.{Frame};

    ghost Value = { List Frame };

    ghost view = { λ f. f.items.items };
}

impl Frames {
    pub(crate) fn new(alloc: Global) -> Frames
        ensures { result ≡ [] }
    {
        Frames {
            items: VecDeque::new(alloc),
        }
    }

    pub(crate) fn with(self, frame: Frame) -> Result<Frames, AllocError>
        ensures { IfOk result (λ frames. frames ≡ frame ∷ self) }
    {
        let mut items = self.items;
        items.push_front(frame)?;
        Ok(Frames { items })
    }

    // The innermost frame, which leaves.
    pub(crate) fn pop(&mut self) -> Option<Frame>
        ensures frame { result ≡ spec.front self.old }
        ensures rest { self.new ≡ spec.rest self.old }
    {
        self.items.pop_front()
    }

    // The innermost frame, where it binds.
    fn bound(&mut self, level: u8) -> Option<Frame>
        ensures frame { result ≡ spec.bound level self.old }
        ensures rest { self.new ≡ spec.unbound level self.old }
    {
        let Some(frame) = self.items.front().copied() else {
            return None;
        };
        if !frame.binds(level) {
            return None;
        }
        self.items.pop_front()
    }

    // Operands that end before an operator of this level are put together, `operand` the last of them.
    #[tactic(auto, using(crate::proofs::FrameLemmas::bound_turns))]
    pub(crate) fn reduced(self, level: u8, operand: Number) -> (Frames, Number)
        ensures { result ≡ spec.reduced level self operand }
    {
        let mut frames = self;
        let mut operand = operand;
        while let Some(frame) = frames.bound(level) {
            operand = frame.completed(operand);
        }
        (frames, operand)
    }
}
