// The members of a JSON value, read as the kinds that LSP 3.17 has.
#![tactic(auto)]

mod error;
mod id;
mod kinds;
mod members;

pub use error::ViewError;
pub use id::{Id, IdText};
pub use members::{
    get_array, get_bool, get_i32, get_id, get_object, get_pos, get_range, get_str, get_text,
    get_u32,
};
