// What there is to check of a function's body (ISO C11 6.8).
ghost use Rattle.std.specs.Prelude.{◌≡◌};
ghost use Rattle.stmt_acts.specs.Withins as spec;

use tree_data::{Expr, Head};

/// What a statement is within, in its function.
#[derive(Clone, Copy, Debug, PartialEq, Eq, Drop)]
pub struct Within {
    pub looping: bool,
    pub switching: bool,
}

impl Within {
    /// Within neither a loop nor a `switch`, as the body of a function is.
    pub fn nowhere() -> Within
        ensures { result ≡ spec.nowhere }
    {
        Within {
            looping: false,
            switching: false,
        }
    }

    /// What the body of a loop is within.
    pub fn looped(self) -> Within
        ensures { result ≡ spec.looped self }
    {
        Within {
            looping: true,
            switching: self.switching,
        }
    }

    /// What the statement of a `switch` is within.
    pub fn switched(self) -> Within
        ensures { result ≡ spec.switched self }
    {
        Within {
            looping: self.looping,
            switching: true,
        }
    }
}

/// One thing to check in a body. Tokens are given by their numbers in the item; what a tree has is lent from there.
#[derive(Clone, Copy, Drop)]
pub enum Act<'a> {
    /// A block begins: a compound, selection or iteration statement, or a substatement of one (6.8.2p2, 6.8.4p3, 6.8.5p5).
    Enter,
    /// The innermost block ends.
    Leave,
    /// An expression that is evaluated for its side effects, as an expression statement is, and the first and the third part of a
    /// `for` (6.8.3p2, 6.8.5.3).
    Evaluate(&'a Expr),
    /// The condition of an `if`, and that keyword (6.8.4.1p1).
    IfTest(u32, &'a Expr),
    /// The condition of a loop, and the keyword that it begins with (6.8.5p2).
    LoopTest(u32, &'a Expr),
    /// A `switch` begins: that keyword, and the expression that controls it (6.8.4.2p1).
    SwitchOn(u32, &'a Expr),
    /// The innermost `switch` ends.
    EndSwitch,
    /// `case` and its expression (6.8.1, 6.8.4.2p3).
    CaseLabel(u32, &'a Expr),
    /// `default` (6.8.1, 6.8.4.2p3).
    DefaultLabel(u32),
    /// A label's name (6.8.1).
    Label(u32),
    /// The label's name behind `goto` (6.8.6.1).
    Goto(u32),
    /// `continue`, and what it is within (6.8.6.2).
    Continue(u32, Within),
    /// `break`, and what it is within (6.8.6.3).
    Break(u32, Within),
    /// `return`, and its expression, if there is one (6.8.6.4).
    Return(u32, Option<&'a Expr>),
    /// A declaration of a block (6.8.2).
    Declare(&'a Head),
    /// A declaration in the first part of a `for` (6.8.5p3).
    DeclareInFor(&'a Head),
}
