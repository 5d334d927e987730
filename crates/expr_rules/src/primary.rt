// Primary expressions (ISO C11 6.5.1), generic selections aside.
ghost use Rattle.std.specs.Prelude.{◌≡◌, ◌≢◌, Err, option_map};
ghost use Rattle.expr_rules.specs.Primary as spec;
ghost use Rattle.type_data.specs.declared.judged.CheckError.TheVariants.{NoMemory};

use crate::answers::{refuse, refuse_name};
use crate::kinds::is_void;
use c_literals::{Literal, StrValue};
use scope_tables::{Entity, EntityKind, Life};
use shared_text::Name;
use std::alloc::Global;
use type_data::{Basic, CType, CheckError, Constancy, Extent, Judged, Node, Place, Value};
use type_rel::{UNQUALIFIED, basic_of, value};

fn place_of(life: Life) -> Place
    ensures { result ≡ spec.place_of life }
{
    match life {
        Life::Register => Place::Register,
        Life::Static => Place::Object,
        Life::Thread => Place::Object,
        Life::Automatic => Place::Object,
        Life::Without => Place::Object,
    }
}

fn address_of(life: Life) -> Constancy
    ensures { result ≡ spec.address_of life }
{
    match life {
        Life::Static => Constancy::Addr,
        Life::Thread => Constancy::No,
        Life::Automatic => Constancy::No,
        Life::Register => Constancy::No,
        Life::Without => Constancy::No,
    }
}

fn value_or_unknown(value: Option<Value>) -> Value
    ensures { result ≡ spec.value_or_unknown value }
{
    match value {
        Some(value) => value,
        None => Value::Unknown,
    }
}

fn not_declared(alloc: Global, at: u32, name: &Name) -> Result<Judged, CheckError>
    ensures { result ≢ Err NoMemory → result ≡ spec.not_declared at name.now }
{
    refuse_name(alloc, at, 501, name)
}

// What has the type void is no lvalue (ISO C11 6.3.2.1p1).
fn is_no_lvalue(entity: &Entity) -> bool
    ensures { result ≡ spec.is_no_lvalue entity.now }
{
    is_void(&entity.ty) && entity.qual == UNQUALIFIED
}

fn object(entity: &Entity) -> Result<Judged, CheckError>
    ensures { result ≢ Err NoMemory → result ≡ spec.object entity.now }
{
    if is_no_lvalue(entity) {
        return Ok(value(CType::of(Node::Void), Constancy::No));
    }
    let Ok(ty) = entity.ty.share() else {
        return Err(CheckError::NoMemory);
    };
    Ok(Judged {
        ty,
        qual: entity.qual,
        place: place_of(entity.life),
        constant: address_of(entity.life),
    })
}

fn function(entity: &Entity) -> Result<Judged, CheckError>
    ensures { result ≢ Err NoMemory → result ≡ spec.function entity.now }
{
    let Ok(ty) = entity.ty.share() else {
        return Err(CheckError::NoMemory);
    };
    Ok(Judged {
        ty,
        qual: UNQUALIFIED,
        place: Place::Function,
        constant: Constancy::Addr,
    })
}

fn enumerator(entity: &Entity) -> Result<Judged, CheckError>
    ensures { result ≢ Err NoMemory → result ≡ spec.enumerator entity.now }
{
    let Ok(ty) = entity.ty.share() else {
        return Err(CheckError::NoMemory);
    };
    Ok(value(ty, Constancy::Int(value_or_unknown(entity.value))))
}

fn denoted(alloc: Global, at: u32, name: &Name, entity: &Entity) -> Result<Judged, CheckError>
    ensures { result ≢ Err NoMemory → result ≡ spec.denoted at name.now entity.now entity.now.kind }
{
    match entity.kind {
        EntityKind::Object => object(entity),
        EntityKind::Function => function(entity),
        EntityKind::Enumerator => enumerator(entity),
        EntityKind::Typedef => not_declared(alloc, at, name),
        EntityKind::Tag(_, _) => not_declared(alloc, at, name),
        EntityKind::Member => not_declared(alloc, at, name),
        EntityKind::Label => not_declared(alloc, at, name),
    }
}

/// An identifier, by what it denotes.
pub(crate) fn identifier(
    alloc: Global,
    at: u32,
    name: &Name,
    entity: &Option<Entity>,
) -> Result<Judged, CheckError>
    ensures { result ≢ Err NoMemory → result ≡ spec.identifier at name.now entity.now }
{
    match entity {
        Some(entity) => denoted(alloc, at, name, entity),
        None => not_declared(alloc, at, name),
    }
}

/// A constant.
pub(crate) fn constant(alloc: Global, at: u32, literal: &Literal) -> Result<Judged, CheckError>
    ensures { result ≢ Err NoMemory → result ≡ spec.constant at literal.now }
{
    match literal {
        Literal::Int(ty, number) => {
            let ty = CType::of(Node::Basic(basic_of(*ty)));
            Ok(value(ty, Constancy::Int(Value::Known(*number))))
        }
        Literal::Floating(basic) => {
            let ty = CType::of(Node::Basic(*basic));
            Ok(value(ty, Constancy::Int(Value::Unknown)))
        }
        Literal::Bad(rule) => refuse(alloc, at, *rule),
    }
}

#[tactic(auto, unfolding(crate::specs::Primary::element_of))]
fn element_of(prefix: u8) -> Basic
    ensures { result ≡ spec.element_of prefix }
{
    match prefix {
        2 => Basic::UShort,
        3 => Basic::UInt,
        4 => Basic::Int,
        _ => Basic::Char,
    }
}

/// A string literal.
pub(crate) fn text(alloc: Global, literal: &StrValue) -> Result<Judged, CheckError>
    ensures { result ≢ Err NoMemory → result ≡ spec.text literal.now }
{
    let element = CType::of(Node::Basic(element_of(literal.prefix)));
    let size = Extent::Size(literal.units.as_slice().len() as u64 + 1);
    let Ok(ty) = CType::array(alloc, element, UNQUALIFIED, size) else {
        return Err(CheckError::NoMemory);
    };
    Ok(Judged {
        ty,
        qual: UNQUALIFIED,
        place: Place::Object,
        constant: Constancy::Addr,
    })
}
