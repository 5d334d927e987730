// Statements of C (ISO C11 6.8): which rule each breaks, by what its parts were judged to be.
#![tactic(auto)]

mod conditions;
mod declarations;
mod faults;
mod jumps;
mod labels;
mod laws;
mod returns;
mod switches;

pub use conditions::{check_if, check_loop};
pub use declarations::{ForParts, check_for};
pub use jumps::{Within, check_break, check_continue};
pub use labels::{check_goto, check_label};
pub use laws::cases_are_apart;
pub use returns::check_return;
pub use switches::{Switches, check_switch};
