// What lexing gives.
ghost use Rattle.std.specs.Prelude.{◌≡◌, ◌≤◌, ℕ, length, IfOk};
ghost use Rattle.text_lines.specs.Positions.{line_starts};
ghost use Rattle.c_tokens.specs.Lexed.{lexed};

use shared_list::Listing;
use std::alloc::{AllocError, Global};
use text_lines::LineTable;
use tok_data::PpToken;

/// A lexical fault: rule 101 is an open comment, 102 an open literal, 103 a stray character.
#[derive(Clone, Copy, Debug, PartialEq, Eq, Drop)]
pub struct LexFault {
    pub rule: u16,
    /// The range in bytes of the text; of an open comment it is that of its first two characters.
    pub start: u32,
    pub end: u32,
    /// The number of the faulty token, from 0; none for an open comment.
    pub tok: Option<u32>,
}

/// The tokens of a text, in order.
pub type Tokens = Listing<PpToken>;

/// The range of each token, in bytes of the text; it begins behind what was removed at its front.
pub type TokenPlaces = Listing<(u32, u32)>;

/// The lexical faults of a text, by where they begin.
pub type Faults = Listing<LexFault>;

/// What lexing gives: the tokens, the place of each, and the faults.
#[derive(Debug, Drop)]
pub struct Lexed {
    pub tokens: Tokens,
    pub places: TokenPlaces,
    pub faults: Faults,
}

/// What is kept of a text apart from its tokens: the place of each, the fronts of its lines, and its faults.
#[derive(Debug, Drop)]
pub struct Places {
    pub places: TokenPlaces,
    pub lines: LineTable,
    pub faults: Faults,
}

impl Lexed {
    /// The tokens of a text, and what else is known of it. Fails only for want of memory.
    pub fn split(self, alloc: Global, text: &str) -> Result<(Vec<PpToken>, Places), AllocError>
        requires lexed { self ≡ lexed text.now }
        requires short { length text.now ≤ 4290772992 }
        ensures tokens { IfOk result (λ r. r.0.items ≡ (lexed text.now).tokens) }
        ensures places { IfOk result (λ r. r.1.places ≡ (lexed text.now).places) }
        ensures lines { IfOk result (λ r. r.1.lines ≡ line_starts text.now) }
        ensures faults { IfOk result (λ r. r.1.faults ≡ (lexed text.now).faults) }
    {
        let lines = LineTable::new(alloc, text)?;
        let tokens = self.tokens.into_vec();
        Ok((
            tokens,
            Places {
                places: self.places,
                lines,
                faults: self.faults,
            },
        ))
    }
}
