// The messages of faults in trees, declarations, expressions, statements and at the ends of units.
#![tactic(auto)]

mod messages;
mod printing;

pub use messages::is_warning;
pub use printing::message;
