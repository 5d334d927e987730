// A meaning as it is printed, a list a line.
use scope_tables::{
    Anchor, EntityKind, Export, Occ, Role, Symbol, SymbolKind, UnitEntity, UnitMeaning,
};
use std::alloc::{AllocError, Global};
use tok_data::{ShownFault, TokId};
use type_data::{CType, Qual, Tags};
use type_print::print;

fn push_token(alloc: Global, out: &mut String, tok: &TokId) -> Result<(), AllocError> {
    let file = tok.file.as_str();
    let at = tok.at;
    let text = format!(in alloc; "{file}:{at}")?;
    out.push_str(text.as_str())
}

fn push_anchor(alloc: Global, out: &mut String, anchor: &Anchor) -> Result<(), AllocError> {
    match anchor {
        Anchor::External(name) => {
            out.push_str("=")?;
            out.push_str(name.as_str())
        }
        Anchor::Local(tok) => push_token(alloc, out, tok),
        Anchor::Made(tok, name) => {
            out.push_str(name.as_str())?;
            out.push_str("@")?;
            push_token(alloc, out, tok)
        }
        Anchor::Macro(name) => out.push_str(name.as_str()),
    }
}

fn role(role: Role) -> &'static str {
    match role {
        Role::Defines => "defines",
        Role::Declares => "declares",
        Role::Uses => "uses",
        Role::Pasted => "pasted",
        Role::Spelled => "spelled",
    }
}

fn kind(kind: SymbolKind) -> &'static str {
    match kind {
        SymbolKind::Object => "object",
        SymbolKind::Function => "function",
        SymbolKind::Enumeration => "enum",
        SymbolKind::Enumerator => "enumerator",
        SymbolKind::Structure => "struct",
    }
}

fn push_type(alloc: Global, out: &mut String, ty: &CType, tags: &Tags) -> Result<(), AllocError> {
    let plain = Qual {
        is_const: false,
        is_restrict: false,
        is_volatile: false,
    };
    let text = print(alloc, ty, plain, "", tags)?;
    out.push_str(text.as_str())
}

fn push_fault(alloc: Global, out: &mut String, fault: &ShownFault) -> Result<(), AllocError> {
    out.push_str("fault ")?;
    push_token(alloc, out, &fault.tok)?;
    let rule = fault.rule;
    let message = fault.text.as_str();
    let text = format!(in alloc; " {rule} {message}\n")?;
    out.push_str(text.as_str())
}

fn push_occ(alloc: Global, out: &mut String, occ: &Occ) -> Result<(), AllocError> {
    out.push_str("occ ")?;
    push_token(alloc, out, &occ.tok)?;
    out.push_str(" ")?;
    push_anchor(alloc, out, &occ.anchor)?;
    out.push_str(" ")?;
    out.push_str(role(occ.role))?;
    out.push_str("\n")
}

fn completeness(kind: &EntityKind) -> &'static str {
    match kind {
        EntityKind::Tag(_, info) => {
            if info.members.is_some() {
                return " complete";
            }
            " incomplete"
        }
        _ => "",
    }
}

fn push_entity(
    alloc: Global,
    out: &mut String,
    entity: &UnitEntity,
    tags: &Tags,
) -> Result<(), AllocError> {
    let declared = entity.declared();
    out.push_str("entity ")?;
    out.push_str(declared.name.as_str())?;
    out.push_str(" ")?;
    push_anchor(alloc, out, entity.anchor())?;
    out.push_str(" ")?;
    push_type(alloc, out, &declared.ty, tags)?;
    out.push_str(completeness(&declared.kind))?;
    out.push_str("\n")
}

fn push_symbol(alloc: Global, out: &mut String, symbol: &Symbol) -> Result<(), AllocError> {
    out.push_str("symbol ")?;
    push_token(alloc, out, &symbol.tok)?;
    out.push_str(" ")?;
    out.push_str(symbol.name.as_str())?;
    out.push_str(" ")?;
    out.push_str(kind(symbol.kind))?;
    out.push_str("\n")
}

fn push_defined(
    alloc: Global,
    out: &mut String,
    defined: &Option<TokId>,
) -> Result<(), AllocError> {
    match defined {
        Some(tok) => {
            out.push_str(" defined ")?;
            push_token(alloc, out, tok)
        }
        None => Ok(()),
    }
}

fn push_export(
    alloc: Global,
    out: &mut String,
    export: &Export,
    tags: &Tags,
) -> Result<(), AllocError> {
    out.push_str("export ")?;
    out.push_str(export.name.as_str())?;
    out.push_str(" ")?;
    push_type(alloc, out, &export.ty, tags)?;
    out.push_str(" ")?;
    push_token(alloc, out, &export.first)?;
    push_defined(alloc, out, &export.defined)?;
    out.push_str("\n")
}

fn push_names(alloc: Global, out: &mut String, meaning: &UnitMeaning) -> Result<(), AllocError> {
    for symbol in meaning.symbols.as_slice() {
        push_symbol(alloc, out, symbol)?;
    }
    for export in meaning.exports.names.as_slice() {
        push_export(alloc, out, export, &meaning.exports.tags)?;
    }
    Ok(())
}

/// What a unit means, as it is printed.
pub fn show(alloc: Global, meaning: &UnitMeaning) -> Result<String, AllocError> {
    let mut out = String::new(alloc);
    for fault in meaning.faults.as_slice() {
        push_fault(alloc, &mut out, fault)?;
    }
    for occ in meaning.occs.as_slice() {
        push_occ(alloc, &mut out, occ)?;
    }
    for entity in meaning.entities.as_slice() {
        push_entity(alloc, &mut out, entity, &meaning.exports.tags)?;
    }
    push_names(alloc, &mut out, meaning)?;
    out.push_str("end\n")?;
    Ok(out)
}
