// Positions in a text as LSP 3.17 counts them, in units of UTF-8, UTF-16 and UTF-32, and edits of a text between them.
#![tactic(auto)]

mod chars;
mod edit;
mod encoding;
mod pos;
mod seek;
mod table;
mod walk;

pub use edit::{Change, ChangeText, EditError, apply};
pub use encoding::Encoding;
pub use pos::{Pos, places_read_back};
pub use table::LineTable;
pub use walk::Walk;
