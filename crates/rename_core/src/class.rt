// The class of a name: the tokens to rename, and what stands in the way.
use scope_tables::Anchor;
use shared_text::Name;
use tok_data::{TokId, TokIds};

/// A token that denotes two entities in one unit (ISO C11 6.2.1p1), as one in the replacement list of a macro may.
#[derive(PartialEq, Eq, Drop)]
pub struct TwoMeanings {
    pub tok: TokId,
    /// The anchor that it has first there.
    pub first: Anchor,
    /// The first other one.
    pub second: Anchor,
}

/// The tokens that have to be renamed with one, and what of them stands in the way of any new name. Where nothing does, that is
/// none.
#[derive(Drop)]
pub struct Class {
    /// All of them, by the names of their texts and by number; none where the token denotes nothing.
    pub toks: TokIds,
    /// Their name, where what they denote has external linkage (ISO C11 6.2.2).
    pub external: Option<Name>,
    /// The first of them that stands in a library text.
    pub library: Option<TokId>,
    /// The place at which a token was made (6.10.3.3) that denotes what they denote.
    pub pasted: Option<TokId>,
    /// The first of them that is spelled as a text (6.10.3.2).
    pub spelled: Option<TokId>,
    /// The first of them that denotes two entities in one unit.
    pub two: Option<TwoMeanings>,
}

/// A class that may have another name, as far as the class and the name tell.
#[derive(Drop)]
pub struct Plan {
    pub class: Class,
    pub new_name: Name,
}
