// What a judgement asks and changes (ISO C11 6.2): what is known of the names in front of an item, the scopes within it, and what was
// found so far.
#![tactic(auto)]

mod answering;
mod around;
mod asked;
mod binding;
mod grown;
mod halt;
mod kinds;
mod known;
mod laws;
mod looks;
mod made;
mod names;
mod noting;
mod numbers;
mod reached;
mod sharing;
mod tokens;
mod wants;
mod words;

pub use answering::note_answers;
pub use around::{Around, Where};
pub use asked::unanswered;
pub use binding::bind;
pub use grown::Grown;
pub use halt::Halt;
pub use known::Known;
pub use laws::{Names, questions_are_lawful};
pub use looks::{look_anonymous, look_at, look_deep, tell};
pub use made::Made;
pub use names::{denoted, mark, note_use, use_entity};
pub use noting::{fault_at, leave_out};
pub use numbers::{number, own_tag, own_token};
pub use sharing::share_binding;
pub use tokens::{first_number, is_identifier, name_at, spelling, token};
pub use wants::{Elab, Wanted};
pub use words::{Word, word_of};
