// Types of C and the values of constants (ISO C11 6.2.5, 6.6), as data.
#![tactic(auto)]

mod basics;
mod integers;
mod judged;
mod layouts;
mod members;
mod names;
mod qualifiers;
mod shared;
mod sharing;
mod tags;
mod types;
mod values;

pub use basics::Basic;
pub use integers::IntTy;
pub use judged::{CheckError, Constancy, Fault, Judged, Place};
pub use layouts::Layout;
pub use members::{Member, Space, TagInfo, TagKind};
pub use names::{ItemName, TagId};
pub use qualifiers::{Extent, Proto, Qual};
pub use shared::Members;
pub use tags::Tags;
pub use types::{CType, Node, ParamList, Params};
pub use values::Value;
