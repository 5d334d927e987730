// What a hover shows of an entity.
ghost use Rattle.std.specs.Prelude.{◌≡◌, ◌++◌, string_bytes, IfOk, OnOk};
ghost use Rattle.type_print.specs.Names;
ghost use Rattle.unit_index.specs.Hover as spec;

use scope_tables::{Entity, EntityKind, UnitEntity};
use std::alloc::{AllocError, Global};
use type_data::{TagKind, Tags, Value};
use type_print::print;

fn kind_name(kind: TagKind) -> &'static str
    ensures { result.now ≡ Names.kind_name kind }
{
    match kind {
        TagKind::Struct => "struct ",
        TagKind::Union => "union ",
        TagKind::Enum => "enum ",
    }
}

// The declaration of an entity as C spells it.
fn declaration(alloc: Global, entity: &Entity, tags: &Tags) -> Result<String, AllocError>
    ensures { IfOk result (λ s. string_bytes s ≡ spec.declaration tags.now entity.now) }
{
    let text = print(alloc, &entity.ty, entity.qual, entity.name.as_str(), tags)?;
    Ok(text)
}

// A word and a name behind it.
fn behind(alloc: Global, word: &str, name: &str) -> Result<String, AllocError>
    ensures { IfOk result (λ s. string_bytes s ≡ word.now ++ name.now) }
{
    let mut text = String::from_str(alloc, word)?;
    text.push_str(name)?;
    Ok(text)
}

fn value_text(alloc: Global, value: Option<Value>) -> Result<String, AllocError>
    ensures { IfOk result (λ s. string_bytes s ≡ spec.value_text value) }
{
    match value {
        Some(Value::Known(number)) => {
            let text = number.to_string(alloc)?;
            Ok(text)
        }
        Some(Value::Unknown) => String::from_str(alloc, "?"),
        Some(Value::Faulty(_)) => String::from_str(alloc, "?"),
        None => String::from_str(alloc, "?"),
    }
}

fn enumerator(alloc: Global, entity: &Entity) -> Result<String, AllocError>
    ensures { IfOk result (λ s. string_bytes s ≡ spec.enumerator entity.now) }
{
    let value = value_text(alloc, entity.value)?;
    let mut text = String::from_str(alloc, entity.name.as_str())?;
    text.push_str(" = ")?;
    text.push_str(value.as_str())?;
    Ok(text)
}

fn typedef_name(alloc: Global, entity: &Entity, tags: &Tags) -> Result<String, AllocError>
    ensures { IfOk result (λ s. string_bytes s ≡ spec.typedef_name tags.now entity.now) }
{
    let declared = declaration(alloc, entity, tags)?;
    let text = behind(alloc, "typedef ", declared.as_str())?;
    Ok(text)
}

// The text of a hover on an entity, whatever its anchor is.
fn text_of(alloc: Global, entity: &Entity, tags: &Tags) -> Result<String, AllocError>
    ensures { IfOk result (λ s. string_bytes s ≡ spec.hover_text tags.now entity.now) }
{
    match &entity.kind {
        EntityKind::Object => declaration(alloc, entity, tags),
        EntityKind::Function => declaration(alloc, entity, tags),
        EntityKind::Member => declaration(alloc, entity, tags),
        EntityKind::Typedef => typedef_name(alloc, entity, tags),
        EntityKind::Tag(_, info) => behind(alloc, kind_name(info.kind), entity.name.as_str()),
        EntityKind::Enumerator => enumerator(alloc, entity),
        EntityKind::Label => behind(alloc, "label ", entity.name.as_str()),
    }
}

/// The text of a hover on an entity: of an object, function, parameter or member its declaration, of a typedef name the same behind
/// `typedef`, of a tag its kind and name, of an enumerator its name and value, `?` where this isn't known, and of a label
/// `label` and its name. A size that isn't told is `?`, a tag without a name `<anonymous>` (ISO C11 6.7.6, 6.7.7). It fails for want of
/// memory alone.
pub fn hover_text(alloc: Global, entity: &UnitEntity, tags: &Tags) -> Result<String, AllocError>
    ensures { IfOk result (λ s. string_bytes s ≡ spec.hover_text tags.now entity.now) }
{
    text_of(alloc, entity.declared(), tags)
}
