// What the server writes to its client: JSON-RPC 2.0 in the base protocol of LSP 3.17.
#![tactic(auto)]

mod framing;
mod located;
mod places;
mod renames;
mod replies;
mod texts;

pub use framing::push_framed;
pub use located::{Located, hover, locations, renamable, symbols};
pub use places::{pos_value, range_value};
pub use renames::edits;
pub use replies::{error, initialize_result, log, push_log, response};
pub use texts::{JsonText, response_of};
