// Constants of C (ISO C11 6.4.4), and what operators and conversions make of their values (6.3.1, 6.5, 6.6).
#![tactic(auto)]

mod arith;
mod characters;
mod digits;
mod escapes;
mod floatings;
mod integers;
mod laws;
mod literal;
mod ops;
mod prefix;
mod ranges;
mod seen;
mod strings;
mod suffixes;
mod text;

pub use characters::character;
pub use floatings::integer;
pub use laws::{floatings_are_constants, integers_are_constants};
pub use literal::Literal;
pub use ops::{Op, convert, value_op};
pub use strings::{LitError, StrValue, string_pieces};
