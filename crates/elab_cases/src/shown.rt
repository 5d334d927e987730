// A meaning as a line.
use crate::setting::{Meant, Setting};
use elab_core::ExprMeaning;
use scope_tables::{Anchor, Occ, Role};
use std::alloc::{AllocError, Global};
use type_data::{Constancy, Fault, Judged, Place, Tags, Value};
use type_print::print;
use type_rel::UNQUALIFIED;

fn place_shown(alloc: Global, place: Place) -> Result<String, AllocError> {
    match place {
        Place::Value => String::from_str(alloc, "value"),
        Place::Object => String::from_str(alloc, "object"),
        Place::BitField(width) => format!(in alloc; "bit-field {width}"),
        Place::Register => String::from_str(alloc, "register"),
        Place::Function => String::from_str(alloc, "function"),
    }
}

fn constant_shown(alloc: Global, constant: Constancy) -> Result<String, AllocError> {
    match constant {
        Constancy::No => String::from_str(alloc, ""),
        Constancy::Int(Value::Known(number)) => format!(in alloc; ", {number}"),
        Constancy::Int(Value::Unknown) => String::from_str(alloc, ", untold"),
        Constancy::Int(Value::Faulty(rule)) => format!(in alloc; ", fault {rule}"),
        Constancy::Arith => String::from_str(alloc, ", arithmetic"),
        Constancy::Addr => String::from_str(alloc, ", address"),
        Constancy::Null => String::from_str(alloc, ", null"),
    }
}

fn judged_shown(alloc: Global, tags: &Tags, part: &Judged) -> Result<String, AllocError> {
    let ty = print(alloc, &part.ty, part.qual, "", tags)?;
    let ty = ty.as_str();
    let place = place_shown(alloc, part.place)?;
    let place = place.as_str();
    let constant = constant_shown(alloc, part.constant)?;
    let constant = constant.as_str();
    format!(in alloc; "{ty}, {place}{constant}")
}

fn fault_shown(alloc: Global, tags: &Tags, fault: &Fault) -> Result<String, AllocError> {
    let rule = fault.rule;
    let at = fault.at;
    let mut out = format!(in alloc; "{rule} at {at}")?;
    for name in fault.names.as_slice() {
        out.push_str(" ")?;
        out.push_str(name.as_str())?;
    }
    let mut parted = ": ";
    for ty in fault.types.as_slice() {
        let ty = print(alloc, ty, UNQUALIFIED, "", tags)?;
        out.push_str(parted)?;
        out.push_str(ty.as_str())?;
        parted = ", ";
    }
    Ok(out)
}

fn role_shown(role: Role) -> &'static str {
    match role {
        Role::Defines => "defined",
        Role::Declares => "declared",
        Role::Uses => "used",
        Role::Pasted => "pasted",
        Role::Spelled => "spelled",
    }
}

fn occ_shown(alloc: Global, occ: &Occ) -> Result<String, AllocError> {
    let at = occ.tok.at;
    let role = role_shown(occ.role);
    match &occ.anchor {
        Anchor::Local(tok) => {
            let file = tok.file.as_str();
            let place = tok.at;
            format!(in alloc; "{at} {role} {file} {place}")
        }
        Anchor::External(name) => {
            let name = name.as_str();
            format!(in alloc; "{at} {role} {name}")
        }
        _ => format!(in alloc; "{at} {role}"),
    }
}

fn faults_shown(
    alloc: Global,
    tags: &Tags,
    out: &mut String,
    faults: &[Fault],
) -> Result<(), AllocError> {
    for fault in faults {
        let shown = fault_shown(alloc, tags, fault)?;
        out.push_str("\n    ")?;
        out.push_str(shown.as_str())?;
    }
    Ok(())
}

fn occs_shown(alloc: Global, out: &mut String, occs: &[Occ]) -> Result<(), AllocError> {
    let mut parted = "\n    tokens ";
    for occ in occs {
        let shown = occ_shown(alloc, occ)?;
        out.push_str(parted)?;
        out.push_str(shown.as_str())?;
        parted = ", ";
    }
    Ok(())
}

fn names_shown(out: &mut String, meaning: &ExprMeaning) -> Result<(), AllocError> {
    let mut parted = "\n    entities ";
    for entity in meaning.entities.as_slice() {
        out.push_str(parted)?;
        out.push_str(entity.name.as_str())?;
        parted = ", ";
    }
    let mut parted = "\n    declares ";
    for binding in meaning.declared.as_slice() {
        out.push_str(parted)?;
        out.push_str(binding.name.as_str())?;
        parted = ", ";
    }
    let mut parted = "\n    counts ";
    for name in meaning.used.as_slice() {
        out.push_str(parted)?;
        out.push_str(name.as_str())?;
        parted = ", ";
    }
    Ok(())
}

/// What an expression means: its type with its qualifiers, what it designates and what kind of constant it is; its faults; what its
/// tokens denote; what it declares; which names with internal linkage it uses where that counts; what was asked for it.
pub fn shown(
    alloc: Global,
    setting: &Setting,
    meant: &Meant,
    long: bool,
) -> Result<String, AllocError> {
    let Some(meaning) = &meant.meaning else {
        return String::from_str(alloc, "no expression");
    };
    let mut out = judged_shown(alloc, &setting.tags, &meaning.judged)?;
    faults_shown(alloc, &setting.tags, &mut out, meaning.faults.as_slice())?;
    if long {
        occs_shown(alloc, &mut out, meaning.occs.as_slice())?;
        names_shown(&mut out, meaning)?;
        out.push_str("\n    asks ")?;
        out.push_str(meant.asked.as_str())?;
    }
    Ok(out)
}
