// What a call of the parser gives where it gives no tree.

/// Why there is no tree.
#[derive(Clone, Copy, Debug, PartialEq, Eq, Hash, Drop)]
pub enum ParseError {
    /// No proper tree spells the tokens. The token is the first, number 0.
    Syntax(u32),
    /// Brackets nest past 256. The token is the bracket that opens the 257th level.
    TooDeep(u32),
    NoMemory,
}

/// Why the parser stopped.
#[derive(Clone, Copy, Debug, PartialEq, Eq, Hash, Drop)]
pub enum Stop {
    /// At this token, which nothing that is parsed has there.
    Syntax(u32),
    NoMemory,
}
