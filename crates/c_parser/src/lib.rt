// Expressions of C, names of types and heads of declarations read from the tokens of a unit (ISO C11 6.5, 6.7, 6.9).
#![tactic(auto)]

mod answers;
mod before;
mod brackets;
mod declarators;
mod enumerations;
mod enumerators;
mod expressions;
mod heads;
mod initializers;
mod joining;
mod kinds;
mod members;
mod names;
mod parts;
mod room;
mod scope;
mod selections;
mod tokens;
mod type_names;
mod whole;

pub use answers::{ParseError, Stop};
pub use kinds::{Kind, Named};
pub use names::NameSet;
pub use parts::{declaration_at, expression_at, parts_law, past_expression};
pub use room::push;
pub use scope::Scope;
pub use whole::{
    head_reading_is_unique, item_words, parse_expr, parse_head, parse_type_name, reading_is_unique,
    type_reading_is_unique,
};
