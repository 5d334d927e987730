// Preprocessing tokens (ISO C11 6.4) as they are read, and as macro expansion (6.10.3) gives them.
ghost use Rattle.std.specs.Prelude.{◌≡◌, IfOk};

use crate::sources::TokId;
use shared_text::Name;
use std::alloc::AllocError;

/// The kind of a preprocessing token (ISO C11 6.4).
#[derive(Clone, Copy, Debug, PartialEq, Eq, PartialOrd, Ord, Hash, Drop)]
pub enum PpKind {
    /// An identifier; keywords are identifiers in this phase.
    Ident,
    /// A preprocessing number (6.4.8).
    Number,
    /// A character constant, or an open one.
    Char,
    /// A string literal, or an open one.
    Str,
    /// A header name (6.4.7), with its delimiters.
    Header,
    /// A punctuator (6.4.6).
    Punct,
    /// A character that belongs to no other token.
    Stray,
}

/// A preprocessing token of a text.
#[derive(Clone, Debug, PartialEq, Eq, Hash, Drop)]
pub struct PpToken {
    pub kind: PpKind,
    /// Its logical characters joined: trigraph sequences replaced, removed line ends left out.
    pub spelling: Name,
    /// White space or a comment stands directly before it; a line end is white space.
    pub space_before: bool,
    /// No token of the same logical line stands before it.
    pub line_start: bool,
}

impl PpToken {
    /// The same token, its spelling shared; it takes no memory but may be refused where that is shared 2^64 times.
    pub fn copy(&self) -> Result<PpToken, AllocError>
        ensures { IfOk result (λ copy. copy ≡ self.now) }
    {
        let spelling = self.spelling.share()?;
        Ok(PpToken {
            kind: self.kind,
            spelling,
            space_before: self.space_before,
            line_start: self.line_start,
        })
    }
}

/// Where an output token is spelt.
#[derive(Debug, PartialEq, Eq, Hash, Drop)]
pub enum Spelt {
    /// As this token of a text.
    At(TokId),
    /// In no text: `#`, `##`, `__LINE__` or `__FILE__` made it.
    Made,
}

impl Spelt {
    /// The same place; it takes no memory but may be refused where a text's name is shared 2^64 times.
    pub fn copy(&self) -> Result<Spelt, AllocError>
        ensures { IfOk result (λ copy. copy ≡ self.now) }
    {
        match self {
            Spelt::At(tok) => {
                let tok = tok.copy()?;
                Ok(Spelt::At(tok))
            }
            Spelt::Made => Ok(Spelt::Made),
        }
    }
}

/// A preprocessing token of a unit, as macro expansion gives it.
#[derive(Debug, PartialEq, Eq, Hash, Drop)]
pub struct OutToken {
    pub kind: PpKind,
    pub spelling: Name,
    /// White space stands before it.
    pub space_before: bool,
    /// Where it is spelt.
    pub spelt: Spelt,
    /// The token of a text that it falls on: that of the outermost macro name which led to it, or its own.
    pub site: TokId,
}

impl OutToken {
    /// The same token, its texts shared; it takes no memory but may be refused where one is shared 2^64 times.
    pub fn copy(&self) -> Result<OutToken, AllocError>
        ensures { IfOk result (λ copy. copy ≡ self.now) }
    {
        let spelling = self.spelling.share()?;
        let spelt = self.spelt.copy()?;
        let site = self.site.copy()?;
        Ok(OutToken {
            kind: self.kind,
            spelling,
            space_before: self.space_before,
            spelt,
            site,
        })
    }
}
