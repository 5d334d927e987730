// Translation phases 1 to 3 of C (ISO C11 5.1.1.2): a text as its preprocessing tokens.
#![tactic(auto)]

mod classes;
mod identifiers;
mod laws;
mod lexing;
mod logical;
mod names;
mod pieces;
mod types;

pub use identifiers::is_identifier;
pub use laws::{characters_follow, front_is_longest, identifiers_are_tokens, pieces_join};
pub use lexing::lex;
pub use tok_data::{PpKind, PpToken};
pub use types::{Faults, LexFault, Lexed, Places, TokenPlaces, Tokens};
