// The constant that a token is (ISO C11 6.4.4).
use type_data::{Basic, IntTy};

/// The rule that an integer constant breaks whose value no type of its list has.
pub(crate) const TOO_LARGE: u16 = 311;

/// The rule that a preprocessing number breaks which is no constant.
pub(crate) const BAD_NUMBER: u16 = 312;

/// The rule that a text breaks whose quotes aren't closed.
pub(crate) const OPEN: u16 = 102;

/// The rule that a character constant breaks whose number of units has no value.
pub(crate) const BAD_CHARACTER: u16 = 313;

/// The rule that an escape breaks which is none, or has a value past the range of its unit.
pub(crate) const BAD_ESCAPE: u16 = 314;

/// The rule that the pieces of a string literal break whose prefixes differ.
pub(crate) const PREFIXES_DIFFER: u16 = 315;

/// A constant.
#[derive(Clone, Copy, Debug, PartialEq, Eq, Drop)]
pub enum Literal {
    /// An integer or character constant: its type and its value.
    Int(IntTy, i128),
    /// A floating constant; its value isn't told.
    Floating(Basic),
    /// None: the number of the rule that is broken.
    Bad(u16),
}
