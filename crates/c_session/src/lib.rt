// The session with one client of the language server: the reaction to each message, over the current texts.
#![tactic(auto)]

mod analysis;
mod answers;
mod classed;
mod counts;
mod cross;
mod current;
mod diagnostics;
mod documents;
mod editing;
mod error;
mod files;
mod held;
mod laws;
mod loading;
mod located;
mod message;
mod news;
mod params;
mod phase;
mod positions;
mod question;
mod questions;
mod reasons;
mod refusals;
mod refused;
mod renamable;
mod rename_laws;
mod renames;
mod renaming;
mod renewal;
mod session;
mod showing;
mod starting;
mod text_kinds;
mod unrenewed;
mod watching;
mod words;

pub use analysis::{Analysis, analysed};
pub use answers::answer;
pub use counts::Counts;
pub use current::{Reply, ReplyBytes};
pub use error::SessionError;
pub use laws::{
    exits_alone_end, refusals_change_nothing, requests_are_answered, responses_are_no_notices,
};
pub use phase::Phase;
pub use question::Question;
pub use rename_laws::{
    edits_are_as_asked, edits_are_read_back, edits_stand_apart, names_are_short,
    plans_are_as_prepared, renames_keep_bindings,
};
pub use session::Session;
