// The units of a project, each with an index, and the questions that go over all of them (ISO C11 5.1.1.1, 6.2.1, 6.2.2).
#![tactic(auto)]

mod across;
mod answers;
mod chains;
mod codes;
mod crossing;
mod exported;
mod files;
mod groups;
mod handles;
mod hover;
mod indexed;
mod introduced;
mod matching;
mod members;
mod needs;
mod outline;
mod pairs;
mod piece;
mod places;
mod pool;
mod sets;
mod shared;
mod under;
mod unit;
mod walks;

pub use across::{CrossFault, Index, News, UnitExports, crossings_after, faults_placed};
pub use answers::{Speaker, definition, references, speaking};
pub use crossing::{Crossing, Crossings, Wrong};
pub use hover::hover_text;
pub use outline::{symbol_number, symbols};
pub use pool::Pool;
pub use under::{are_apart, token_under};
pub use unit::IndexedUnit;
