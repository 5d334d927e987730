// The texts that a session has: those of files on disk, and those that the client has open.
#![tactic(auto)]

mod changes;
mod copies;
mod docs;
mod error;
mod kept;
mod laws;
mod path_set;
mod prior;
mod ranges;

pub use docs::Docs;
pub use error::DocError;
pub use laws::{documents_follow, edits_follow, paths_are_sets, texts_follow, texts_stay_short};
pub use path_set::PathSet;
pub use prior::PriorTexts;
pub use ranges::{ByteRange, TextEdits};
