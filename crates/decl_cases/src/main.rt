// Declarations, case by case: reads scopes and declarators from standard input, one a line, and prints what each declarator
// makes its name denote, or the rule that it breaks with what its text prints. What is declared stays in its scope.
#![tactic(auto)]

mod notation;
mod words;

use decl_rules::{DeclParts, declare_one};
use notation::shown_type;
use scope_tables::{Anchor, Entity, EntityKind, Life, Linkage, Scopes};
use shared_text::Name;
use std::alloc::{AllocError, Global};
use std::io;
use std::io::Read;
use type_data::{CheckError, Fault, Space, Tags};
use words::{parts_of, scope_named, tags_of};

fn kind_name(kind: &EntityKind) -> &'static str {
    match kind {
        EntityKind::Function => "function",
        EntityKind::Typedef => "typedef",
        EntityKind::Object => "object",
        _ => "other",
    }
}

fn linkage_name(linkage: Linkage) -> &'static str {
    match linkage {
        Linkage::None => "none",
        Linkage::Internal => "internal",
        Linkage::External => "external",
    }
}

fn life_name(life: Life) -> &'static str {
    match life {
        Life::Static => "static",
        Life::Thread => "thread",
        Life::Automatic => "automatic",
        Life::Register => "register",
        Life::Without => "without",
    }
}

fn shown_anchor(alloc: Global, anchor: &Anchor) -> Result<String, AllocError> {
    match anchor {
        Anchor::External(name) => {
            let name = name.as_str();
            format!(in alloc; "External {name}")
        }
        Anchor::Local(tok) => {
            let number = tok.at;
            format!(in alloc; "Local {number}")
        }
        Anchor::Made(tok, name) => {
            let number = tok.at;
            let name = name.as_str();
            format!(in alloc; "Made {number} {name}")
        }
        Anchor::Macro(name) => {
            let name = name.as_str();
            format!(in alloc; "Macro {name}")
        }
    }
}

fn shown_entity(alloc: Global, entity: &Entity) -> Result<String, AllocError> {
    let kind = kind_name(&entity.kind);
    let linkage = linkage_name(entity.linkage);
    let life = life_name(entity.life);
    let ty = shown_type(alloc, &entity.ty)?;
    let ty = ty.as_str();
    let anchor = shown_anchor(alloc, &entity.anchor)?;
    let anchor = anchor.as_str();
    format!(in alloc; "{kind} {ty} {linkage} {life} {anchor}")
}

fn shown_fault(alloc: Global, fault: &Fault) -> Result<String, AllocError> {
    let rule = fault.rule;
    let at = fault.at;
    let mut out = format!(in alloc; "{rule} at {at}")?;
    for name in fault.names.as_slice() {
        out.push_str(" ")?;
        out.push_str(name.as_str())?;
    }
    for ty in fault.types.as_slice() {
        let ty = shown_type(alloc, ty)?;
        out.push_str(" ")?;
        out.push_str(ty.as_str())?;
    }
    Ok(out)
}

// Declares what has a name in a scope that was entered.
fn enter(scopes: &mut Scopes, name: &Name, entity: Entity) -> Result<(), AllocError> {
    if scopes.depth() == 0 || name.as_str().is_empty() {
        drop(entity);
        return Ok(());
    }
    let Ok(name) = name.share() else {
        drop(entity);
        return Err(AllocError);
    };
    let before = scopes.declare(Space::Ordinary, name, entity)?;
    drop(before);
    Ok(())
}

// What an entity is, which is declared.
fn shown_entered(
    alloc: Global,
    scopes: &mut Scopes,
    name: &Name,
    entity: Entity,
) -> Result<String, AllocError> {
    let Ok(shown) = shown_entity(alloc, &entity) else {
        drop(entity);
        return Err(AllocError);
    };
    enter(scopes, name, entity)?;
    Ok(shown)
}

// What these parts of a declarator give; what they declare is declared.
fn given(
    alloc: Global,
    scopes: &mut Scopes,
    tags: &Tags,
    decl: &DeclParts,
) -> Result<String, AllocError> {
    match declare_one(alloc, scopes, decl, tags) {
        Ok(entity) => shown_entered(alloc, scopes, &decl.name, entity),
        Err(CheckError::Broken(fault)) => shown_fault(alloc, &fault),
        Err(CheckError::NoMemory) => String::from_str(alloc, "no memory"),
    }
}

// What a line's declarator gives.
fn declared(
    alloc: Global,
    scopes: &mut Scopes,
    tags: &Tags,
    number: u32,
    line: &str,
) -> Result<String, AllocError> {
    let Some(decl) = parts_of(alloc, number, line)? else {
        return String::from_str(alloc, "no declarator");
    };
    given(alloc, scopes, tags, &decl)
}

// Enters or leaves a scope.
fn moved(scopes: &mut Scopes, line: &str) -> Result<bool, AllocError> {
    if line == "leave" && 0 < scopes.depth() {
        scopes.leave();
        return Ok(true);
    }
    let Some(word) = line.strip_prefix("enter ") else {
        return Ok(false);
    };
    scopes.enter(scope_named(word))?;
    Ok(true)
}

fn main(rt: HostRuntime) -> io::Result<()> {
    let mut text = String::new(rt.alloc());
    rt.stdin().read_to_string(&mut text)?;
    let mut scopes = Scopes::new(rt.alloc());
    let tags = tags_of(rt.alloc())?;
    let mut number: u32 = 0;
    for line in text.lines() {
        if moved(&mut scopes, line)? {
            println!(rt; "{line}")?;
            continue;
        }
        let shown = declared(rt.alloc(), &mut scopes, &tags, number, line)?;
        let shown = shown.as_str();
        println!(rt; "{line} = {shown}")?;
        number = number.wrapping_add(1);
    }
    Ok(())
}
