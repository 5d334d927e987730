// Small rules for the query graph, and what a graph does over them.
#![tactic(auto)]

mod cells;
mod opinions;
mod pick;
mod plain;
mod several;
mod sheet;
mod turns;
mod web;

pub use cells::{Cell, CellRules};
pub use opinions::{Opinions, compare};
pub use pick::{PickKey, PickRules};
pub use plain::Plain;
pub use several::demand_all;
pub use sheet::{Edit, Shown, Swept, demand_together, edit_all, edit_under, sweep_after};
pub use turns::{Between, Input, Outcome, Turn, play, sweep_between, sweep_once};
pub use web::{Knot, WebRules};
