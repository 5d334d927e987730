// What rows give, as text.
use crate::notation::shown_type;
use head_rules::{Alignment, Begun, Denotes, Enumerated, Fielded};
use scope_tables::{Entity, How, Role};
use std::alloc::{AllocError, Global};
use type_data::{Fault, Layout, Value};

pub fn shown_value(alloc: Global, value: Value) -> Result<String, AllocError> {
    match value {
        Value::Known(number) => format!(in alloc; "{number}"),
        Value::Unknown => String::from_str(alloc, "?"),
        Value::Faulty(_) => String::from_str(alloc, "faulty"),
    }
}

/// A fault with what its text prints.
pub fn shown_fault(alloc: Global, fault: &Fault) -> Result<String, AllocError> {
    let rule = fault.rule;
    let at = fault.at;
    let mut out = format!(in alloc; "{rule} at {at}")?;
    for name in fault.names.as_slice() {
        out.push_str(" ")?;
        out.push_str(name.as_str())?;
    }
    for ty in fault.types.as_slice() {
        let ty = shown_type(alloc, ty)?;
        out.push_str(" ")?;
        out.push_str(ty.as_str())?;
    }
    Ok(out)
}

/// A fault, or that there is none.
pub fn shown_outcome(alloc: Global, fault: &Option<Fault>) -> Result<String, AllocError> {
    match fault {
        Some(fault) => shown_fault(alloc, fault),
        None => String::from_str(alloc, "none"),
    }
}

fn add_fault(alloc: Global, out: &mut String, fault: &Option<Fault>) -> Result<(), AllocError> {
    let Some(fault) = fault else {
        return Ok(());
    };
    let shown = shown_fault(alloc, fault)?;
    out.push_str(" [")?;
    out.push_str(shown.as_str())?;
    out.push_str("]")
}

fn entity_value(entity: &Entity) -> Value {
    match entity.value {
        Some(value) => value,
        None => Value::Unknown,
    }
}

/// An enumerator: its value where it is declared, and its fault.
pub fn shown_enumerator(alloc: Global, enumerated: &Enumerated) -> Result<String, AllocError> {
    let mut out = match &enumerated.entity {
        Some(entity) => shown_value(alloc, entity_value(entity))?,
        None => String::from_str(alloc, "-")?,
    };
    add_fault(alloc, &mut out, &enumerated.fault)?;
    Ok(out)
}

fn shown_denotes(alloc: Global, denotes: &Denotes) -> Result<String, AllocError> {
    match denotes {
        Denotes::Nothing => String::from_str(alloc, "-"),
        Denotes::Itself(entity) => shown_type(alloc, &entity.ty),
        Denotes::Earlier(id) => {
            let number = id.at;
            format!(in alloc; "as {number}")
        }
    }
}

/// A member: its type where its name is declared, else the token of an earlier one, and its fault.
pub fn shown_field(alloc: Global, fielded: &Fielded) -> Result<String, AllocError> {
    let mut out = shown_denotes(alloc, &fielded.denotes)?;
    add_fault(alloc, &mut out, &fielded.fault)?;
    Ok(out)
}

/// Size and alignment in bytes, then the place of each member in bits.
pub fn shown_layout(alloc: Global, layout: &Option<Layout>) -> Result<String, AllocError> {
    let Some(layout) = layout else {
        return String::from_str(alloc, "no layout");
    };
    let size = layout.size();
    let align = layout.align();
    let mut out = format!(in alloc; "size {size} align {align} at")?;
    for place in layout.offsets() {
        let number = *place;
        let place = format!(in alloc; " {number}")?;
        out.push_str(place.as_str())?;
    }
    Ok(out)
}

pub fn shown_begun(alloc: Global, begun: &Begun) -> Result<String, AllocError> {
    match begun {
        Begun::New => String::from_str(alloc, "new"),
        Begun::Again(id) => {
            let number = id.at;
            format!(in alloc; "again {number}")
        }
        Begun::Refused(fault) => shown_fault(alloc, fault),
    }
}

/// The alignment that is stated so far, whether a specifier has a fault, and the last one's fault.
pub fn shown_alignment(
    alloc: Global,
    alignment: Alignment,
    fault: &Option<Fault>,
) -> Result<String, AllocError> {
    let mut out = match alignment.value {
        Some(value) => shown_value(alloc, value)?,
        None => String::from_str(alloc, "none")?,
    };
    if alignment.faulty {
        out.push_str(" faulty")?;
    }
    add_fault(alloc, &mut out, fault)?;
    Ok(out)
}

pub fn role_name(role: Role) -> &'static str {
    match role {
        Role::Defines => "defines",
        Role::Declares => "declares",
        _ => "other",
    }
}

pub fn how_name(how: How) -> &'static str {
    match how {
        How::Defines => "defines",
        How::Tentative => "tentative",
        How::Refused => "refused",
        How::Declares => "declares",
    }
}
