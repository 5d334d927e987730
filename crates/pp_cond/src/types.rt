// What a condition gives.
use tok_data::{MacroOccs, TokId};

/// Whether the group behind a condition is taken.
#[derive(Debug, Drop)]
pub enum Truth {
    /// The value isn't 0.
    Yes,
    /// The value is 0.
    No,
    /// There is no value: the line is no constant expression, its value has a fault, or its expansion has one.
    Bad,
    /// It isn't known yet: `__LINE__` is replaced at this site, whose line isn't given.
    Asks(TokId),
}

/// What a condition gives.
#[derive(Debug, Drop)]
pub struct Cond {
    pub truth: Truth,
    /// The number of replacements.
    pub used: u32,
    /// Where macros' names stand: the operands of `defined` that are written so, what is replaced, and then what is left
    /// of identifiers, each in order. None where the truth is `Asks`.
    pub macros: MacroOccs,
}
