// The trees of C (ISO C11 6.5, 6.7, 6.8, 6.9).
#![tactic(auto)]

mod expr;
mod heads;
mod inits;
mod members;
mod parts;
mod selections;
mod statements;
mod types;

pub use expr::Expr;
pub use heads::Head;
pub use inits::{Braces, Designator, Init, Piece};
pub use members::{Assertion, Enumeration, Enumerator, Field, Member};
pub use parts::{Choice, Suffix};
pub use selections::Association;
pub use statements::{Item, Lead, Stmt};
pub use types::{
    Bound, Declarator, Deriving, Group, Parameters, Pointer, Prefix, Specifier, Specs, TypeName,
};
