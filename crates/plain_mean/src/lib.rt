// The units of a session's texts, read anew: what each means, and what each file shows.
#![tactic(auto)]

mod answers;
mod changes;
mod confs;
mod laws;
mod lexings;
mod lists;
mod marks;
mod meaning;
mod messages;
mod ranges;
mod reading;
mod same;
mod shown;
mod spelled;
mod token_kinds;
mod tokens;
mod types;

pub use changes::Changes;
pub use confs::{conf_of, database_fault, database_path};
pub use laws::{
    answers_stay, configurations_are_equal, edited_as_meant, grounds_hold, meanings_follow,
    units_follow, units_stay,
};
pub use lexings::{KeptLexings, LexedText, Lexings};
pub use lists::{Gathered, ShownLists, shown_lists, unit_count, units};
pub use meaning::mean;
pub use messages::is_warning;
pub use ranges::{edits_of, paths_in, texts_after};
pub use reading::Reading;
pub use token_kinds::kinds;
pub use types::{Grounds, Meant, Shown, ShownFaults, ShownList, UnitMeaning};
