// The contents of a generated session.
#![tactic(auto)]

mod messages;
mod script;
mod texts;

pub use script::generate;
