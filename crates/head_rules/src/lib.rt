// Parts of declarations of C (ISO C11 6.7): members, enumerators, tags with a body, alignments, static assertions, and declarations
// without a declarator. Each row takes what its condition reads of judged parts.
#![tactic(auto)]

mod alignments;
mod anonymous;
mod assertions;
mod bare;
mod bodies;
mod enumerators;
mod faults;
mod fields;
mod flexible;
mod members;
mod naming;
mod outcomes;
mod parts;
mod roles;
mod widths;

pub use alignments::Alignment;
pub use assertions::assertion;
pub use bare::{bare_declaration, bare_member};
pub use bodies::{begin_body, completed};
pub use enumerators::Enumerators;
pub use fields::Fields;
pub use naming::{Constant, NameToken};
pub use outcomes::{Begun, ClosedFields, Denotes, Enumerated, Fielded};
pub use parts::{BareParts, FieldParts, Specified};
pub use roles::{Declaring, Places, how_of, needs_constants, place_of, refused_how, role_of};
