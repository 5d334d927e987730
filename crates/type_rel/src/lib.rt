// Relations between types (ISO C11 6.2.7, 6.3.1, 6.5.16.1), and what operators and initializers ask of one (6.2.5, 6.3.2.1, 6.6).
#![tactic(auto)]

mod arithmetic;
mod assignment;
mod compatibility;
mod completeness;
mod composition;
mod constancies;
mod conversion;
mod inside;
mod kinds;
mod placement;
mod sizes;

pub use arithmetic::{basic_of, integer_of, promote, usual};
pub use assignment::{
    assignable, is_arithmetic, is_null_pointer, is_object, is_void_beside, is_zero,
};
pub use compatibility::compatible;
pub use completeness::{has_members, is_complete, is_open_array};
pub use composition::composite;
pub use constancies::{is_address, is_arith, is_told};
pub use conversion::{after_reading, converted, value};
pub use inside::{deeper, is_inside, most_tags};
pub use kinds::{UNQUALIFIED, integer_type, is_bad};
pub use placement::layout;
pub use sizes::size_align;
