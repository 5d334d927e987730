// What a unit asks for, what it is told, and what comes of it.
use crate::shared::{PpTokens, TextPlaces};
use shared_list::Listing;
use tok_data::{FileId, MacroOccs, OutTokens, PpFaults, TokId, TokIds};
use uri_paths::Path;

/// Paths, in order.
pub type Paths = Listing<Path>;

/// What is told of a path.
#[derive(Debug, Drop)]
pub enum FileAnswer {
    /// No text is held there.
    Absent,
    /// A text is held there.
    There,
    /// The tokens of the text.
    Tokens(PpTokens),
    /// The places of its tokens.
    Lines(TextPlaces),
}

/// What a unit wants to be told.
#[derive(Debug, Drop)]
pub enum Want {
    /// Whether a text is held there.
    Exists(Path),
    /// The tokens of its text.
    Text(Path),
    /// The places of its tokens, for `__LINE__`.
    Lines(Path),
}

/// What is wanted, in order.
pub type Wants = Listing<Want>;

/// A text that was entered.
#[derive(Debug, Drop)]
pub struct Entered {
    pub file: FileId,
    /// The header name, or first token, by which it was; 2^32-1 of the unit's own text for `<command>`.
    pub by: TokId,
}

/// Texts that were entered, in order, repetitions kept.
pub type Entry = Listing<Entered>;

/// The tokens of a unit, and what was met on the way.
#[derive(Debug, Drop)]
pub struct UnitTokens {
    pub tokens: OutTokens,
    pub faults: PpFaults,
    /// The paths whose texts were read, each once, in the order of their first entry; the unit's own first.
    pub reads: Paths,
    /// The tokens of arguments that `#` spelled.
    pub spelled: TokIds,
    pub entered: Entry,
    /// The occurrences of macros' names, in the order of the run.
    pub macros: MacroOccs,
}

/// What a unit comes to over what it is told.
#[derive(Debug, Drop)]
pub enum Go {
    /// It needs these, none of which is told, the next first.
    Need(Wants),
    /// It is read whole.
    Done(UnitTokens),
}
