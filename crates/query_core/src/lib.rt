// The query graph: results with the results that they read. After an edit only what is due is computed again.
#![tactic(auto)]

mod frame;
mod graph;
mod keys;
mod laws;
mod opening;
mod readers;
mod record;
mod removal;
mod rules;
mod store;
mod tallies;

pub use graph::{Graph, NodeId};
pub use keys::{Keys, Reads, TryCopy};
pub use laws::{
    demands_begin, demands_go_on, due_before_demands, held_on, verified_holds, verified_on,
};
pub use rules::{Answers, Rules, Step};
