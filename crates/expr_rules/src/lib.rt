// What an operator makes of its operands (ISO C11 6.5, 6.6).
#![tactic(auto)]

mod access;
mod answers;
mod assignments;
mod binary;
mod calls;
mod casts;
mod constants;
mod judging;
mod kinds;
mod lvalues;
mod members;
mod offsets;
mod operands;
mod parts;
mod postfix;
mod primary;
mod reached;
mod selection;
mod unary;

pub use judging::judge;
pub use parts::{Association, Designator, Form, Operator};
