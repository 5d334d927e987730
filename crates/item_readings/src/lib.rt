// The one tree of an item's head or body as a function of its tokens (ISO C11 6.7, 6.8.2, 6.9).
#![tactic(auto)]

mod laws;
mod readings;

pub use laws::{bodies_agree, heads_agree, readings_exist};
pub use readings::{BodyReading, HeadReading, Refusal, read_body, read_head};
