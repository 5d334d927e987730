// What the names of a unit denote, and the scopes in which they do (ISO C11 6.2.1 to 6.2.4).
#![tactic(auto)]

mod bindings;
mod entities;
mod files;
mod index;
mod meanings;
mod scopes;
mod shared;
mod sharing;
mod table;
mod units;

pub use bindings::Binding;
pub use entities::{Anchor, Entity, EntityKind, Life, Linkage, Occ, Role, ScopeKind};
pub use files::item_file;
pub use meanings::{BodyMeaning, HeadMeaning, HeadSymbol, How, Stated};
pub use scopes::Scopes;
pub use shared::{Entities, UnitEntity};
pub use units::{Export, Exports, Symbol, SymbolKind, UnitMeaning};
