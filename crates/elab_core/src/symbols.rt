// Tokens of a head that define or declare a name at file scope (ISO C11 6.2.1p4).
ghost use Rattle.std.specs.Prelude.{◌≡◌, ◌++◌, IfOk, OnOk, option_map};
ghost use Rattle.elab_core.specs.Symbols as spec;
ghost use Rattle.elab_state.specs.Seen.{context_of};

use elab_state::{Around, Made, spelling};
use scope_tables::{Anchor, Entity, EntityKind, HeadSymbol, Occ, Role, SymbolKind};
use shared_list::Listing;
use std::alloc::{AllocError, Global};
use type_data::{Space, TagKind};

fn of_tag(kind: TagKind) -> SymbolKind
    ensures { result ≡ spec.of_tag kind }
{
    match kind {
        TagKind::Struct => SymbolKind::Structure,
        TagKind::Union => SymbolKind::Structure,
        TagKind::Enum => SymbolKind::Enumeration,
    }
}

fn of_kind(kind: &EntityKind) -> Option<SymbolKind>
    ensures { result ≡ spec.of_kind kind.now }
{
    match kind {
        EntityKind::Object => Some(SymbolKind::Object),
        EntityKind::Function => Some(SymbolKind::Function),
        EntityKind::Typedef => Some(SymbolKind::Structure),
        EntityKind::Tag(_, info) => Some(of_tag(info.kind)),
        EntityKind::Enumerator => Some(SymbolKind::Enumerator),
        EntityKind::Member => None,
        EntityKind::Label => None,
    }
}

fn if_told(anchor: &Anchor, entity: Option<&Entity>) -> Option<SymbolKind>
    ensures { result ≡ spec.if_told anchor.now (option_map (λ e. e.now) entity.entry) }
{
    let Some(entity) = entity else {
        return None;
    };
    if entity.anchor == *anchor {
        return of_kind(&entity.kind);
    }
    None
}

fn denoted(made: &Made, name: &str, anchor: &Anchor) -> Option<SymbolKind>
    ensures { result ≡ spec.denoted made.now name.now anchor.now }
{
    match if_told(anchor, made.names.find_here(&Space::Ordinary, name)) {
        Some(kind) => Some(kind),
        None => if_told(anchor, made.names.find_here(&Space::Tags, name)),
    }
}

fn declares(role: Role) -> bool
    ensures { result ≡ spec.declares role }
{
    match role {
        Role::Defines => true,
        Role::Declares => true,
        Role::Uses => false,
        Role::Pasted => false,
        Role::Spelled => false,
    }
}

fn list(out: &mut Vec<HeadSymbol>, at: u32, kind: Option<SymbolKind>) -> Result<(), AllocError>
    ensures { OnOk result (out.new.items ≡ out.old.items ++ spec.listed at kind) }
{
    match kind {
        Some(kind) => {
            out.push(HeadSymbol { at, kind })?;
            Ok(())
        }
        None => Ok(()),
    }
}

fn add(
    around: &Around<'_>,
    made: &Made,
    out: &mut Vec<HeadSymbol>,
    occ: &Occ,
) -> Result<(), AllocError>
    ensures { OnOk result (out.new.items ≡ out.old.items ++ spec.of_occ (context_of around.now) made.now occ.now) }
{
    if !declares(occ.role) {
        return Ok(());
    }
    let at = occ.tok.at;
    let name = spelling(around.tokens, at.saturating_sub(around.base));
    list(out, at, denoted(made, name, &occ.anchor))
}

fn of_occs(
    alloc: Global,
    around: &Around<'_>,
    made: &Made,
    occs: &[Occ],
) -> Result<Vec<HeadSymbol>, AllocError>
    ensures { IfOk result (λ v. v.items ≡ spec.of_occs (context_of around.now) made.now occs.now) }
{
    let mut out = Vec::new(alloc);
    let mut rest = occs;
    'occs: while let Some((occ, others)) = rest.split_first() {
        add(around, made, &mut out, occ)?;
        rest = others;
    }
    Ok(out)
}

/// The tokens of a head that define or declare a name at file scope, in the order in which they were come to, where nothing but the file's
/// scope is entered. Each costs two look-ups.
pub fn head_symbols(
    alloc: Global,
    around: &Around<'_>,
    made: &Made,
) -> Result<Listing<HeadSymbol>, AllocError>
    ensures { IfOk result (λ l. l ≡ spec.symbols (context_of around.now) made.now) }
{
    let list = of_occs(alloc, around, made, made.occs.as_slice())?;
    Ok(Listing::from_vec(list))
}
