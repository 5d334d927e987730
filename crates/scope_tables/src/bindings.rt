// What a name denotes in a scope (ISO C11 6.2.1, 6.2.3).
use crate::entities::Entity;
use shared_text::Name;
use type_data::Space;

/// A name in a name space, and what it denotes.
#[derive(PartialEq, Eq, Drop)]
pub struct Binding {
    pub space: Space,
    pub name: Name,
    pub entity: Entity,
}
