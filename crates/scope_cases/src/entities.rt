// An entity to declare.
use scope_tables::{Anchor, Entity, EntityKind, Life, Linkage};
use shared_text::Name;
use std::alloc::{AllocError, Global};
use type_data::{Basic, CType, Node, Qual};

// An object in a block has no linkage (6.2.2p6).
fn linkage_of(life: Life) -> Linkage {
    match life {
        Life::Static => Linkage::Internal,
        Life::Thread => Linkage::External,
        Life::Automatic => Linkage::None,
        Life::Register => Linkage::None,
        Life::Without => Linkage::None,
    }
}

/// An object of this name and life, of type int.
pub fn object(alloc: Global, name: &str, life: Life) -> Result<Entity, AllocError> {
    let name = Name::from_str(alloc, name)?;
    let anchor = Anchor::External(name.share()?);
    Ok(Entity {
        name,
        kind: EntityKind::Object,
        ty: CType::of(Node::Basic(Basic::Int)),
        qual: Qual {
            is_const: false,
            is_restrict: false,
            is_volatile: false,
        },
        linkage: linkage_of(life),
        life,
        value: None,
        anchor,
    })
}
