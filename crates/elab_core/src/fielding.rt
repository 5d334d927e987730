// Members of structures and unions (ISO C11 6.7.2.1).
ghost use Rattle.std.specs.Prelude.{◌≡◌, IfOk, OnOk};
ghost use Rattle.elab_core.specs.Constants;
ghost use Rattle.elab_core.specs.Fielding as spec;
ghost use Rattle.elab_state.specs.Comes.{Comes, Leads};
ghost use Rattle.elab_state.specs.Seen.{context_of, told_of};

use crate::constants::needed;
use crate::flexible::is_flexible;
use crate::notes::{constant_of, named_token, note, renumbered};
use crate::parameters::or_at;
use crate::shapes::{Gathered, Typed};
use elab_state::{Around, Halt, Made, look_at, look_deep, mark, token};
use head_rules::{ClosedFields, Constant, Denotes, FieldParts, Fielded, Fields, bare_member};
use scope_tables::{Anchor, Entity, EntityKind, Life, Linkage, Role, item_file};
use shared_list::Listing;
use shared_text::Name;
use std::alloc::{AllocError, Global};
use type_data::{CType, Fault, Judged, Member, Node, TagId, Value};
use type_rel::{UNQUALIFIED, is_bad};

fn parts(
    alloc: Global,
    around: &Around<'_>,
    gathered: &Gathered,
    at: u32,
    own: Option<u32>,
    typed: &Typed,
    width: Constant,
    flexible: bool,
) -> Result<FieldParts, AllocError>
    ensures { IfOk result (λ w. w ≡ spec.parts (context_of around.now) gathered.now at own typed.now width flexible) }
{
    let name = named_token(alloc, around, own)?;
    let ty = typed.ty.share()?;
    Ok(FieldParts {
        name,
        at,
        ty,
        qual: typed.qual,
        width,
        align: gathered.align.value,
        align_at: or_at(gathered.align.at, at),
        flexible,
    })
}

fn mark_earlier(
    alloc: Global,
    around: &Around<'_>,
    made: &mut Made,
    at: u32,
    id: &TagId,
) -> Result<(), AllocError>
    ensures { OnOk result (made.new ≡ spec.marked_earlier (context_of around.now) at id.now made.old) }
{
    let file = item_file(alloc, &id.item)?;
    let tok = token(&file, id.at)?;
    let anchor = Anchor::Local(tok);
    let done = mark(around, made, at, &anchor, Role::Defines);
    drop(anchor);
    done
}

fn define(around: &Around<'_>, made: &mut Made, at: u32, entity: Entity) -> Result<(), AllocError>
    ensures { OnOk result (made.new ≡ spec.defined (context_of around.now) at entity made.old) }
{
    let Ok(()) = mark(around, made, at, &entity.anchor, Role::Defines) else {
        drop(entity);
        return Err(AllocError);
    };
    made.entities.push(entity)?;
    Ok(())
}

fn denote(
    alloc: Global,
    around: &Around<'_>,
    made: &mut Made,
    at: u32,
    denotes: Denotes,
) -> Result<(), AllocError>
    ensures { OnOk result (made.new ≡ spec.denoting (context_of around.now) at denotes made.old) }
{
    match denotes {
        Denotes::Itself(entity) => define(around, made, at, entity),
        Denotes::Earlier(id) => mark_earlier(alloc, around, made, at, &id),
        Denotes::Nothing => Ok(()),
    }
}

fn denote_if_named(
    alloc: Global,
    around: &Around<'_>,
    made: &mut Made,
    own: Option<u32>,
    denotes: Denotes,
) -> Result<(), AllocError>
    ensures { OnOk result (made.new ≡ spec.denoting_if_named (context_of around.now) own denotes made.old) }
{
    match own {
        Some(at) => denote(alloc, around, made, at, denotes),
        None => {
            drop(denotes);
            Ok(())
        }
    }
}

fn placed(around: &Around<'_>, fault: Fault) -> Fault
    ensures { result ≡ spec.placed (context_of around.now) fault }
{
    if fault.rule == 402 {
        return renumbered(around, fault);
    }
    fault
}

fn placed_if(around: &Around<'_>, fault: Option<Fault>) -> Option<Fault>
    ensures { result ≡ spec.placed_if (context_of around.now) fault }
{
    match fault {
        Some(fault) => Some(placed(around, fault)),
        None => None,
    }
}

fn add(
    alloc: Global,
    around: &Around<'_>,
    made: &mut Made,
    fields: &mut Fields,
    own: Option<u32>,
    parts: &FieldParts,
) -> Result<(), AllocError>
    ensures { OnOk result ((fields.new, made.new) ≡ spec.fielded (context_of around.now) own parts.now fields.old made.old) }
{
    let Fielded { denotes, fault } = fields.add(alloc, &made.tags, parts)?;
    let Ok(()) = note(made, placed_if(around, fault)) else {
        drop(denotes);
        return Err(AllocError);
    };
    denote_if_named(alloc, around, made, own, denotes)
}

fn look(alloc: Global, around: &Around<'_>, made: &mut Made, typed: &Typed) -> Result<(), Halt>
    ensures { Leads (told_of around.now) (spec.looked (context_of around.now) typed.now made.old) result made.new }
{
    match look_at(alloc, around, made, &typed.ty) {
        Ok(()) => (),
        Err(halt) => return Err(halt),
    }
    look_deep(alloc, around, made, &typed.ty)
}

fn add_with_type(
    alloc: Global,
    around: &Around<'_>,
    made: &mut Made,
    fields: &mut Fields,
    gathered: &Gathered,
    at: u32,
    own: Option<u32>,
    typed: &Typed,
) -> Result<(), AllocError>
    ensures { OnOk result ((fields.new, made.new) ≡ spec.with_type (context_of around.now) gathered.now at own typed.now fields.old made.old) }
{
    let flexible = is_flexible(alloc, &made.tags, &typed.ty)?;
    let parts = parts(
        alloc,
        around,
        gathered,
        at,
        own,
        typed,
        Constant::Absent,
        flexible,
    )?;
    let done = add(alloc, around, made, fields, own, &parts);
    drop(parts);
    done
}

/// A member that is no bit-field, of this type, whose name is the token `own`; its faults stand on the token `at` and are noted. What is
/// known of the tags that objects of the type hold is asked for.
pub fn add_member(
    alloc: Global,
    around: &Around<'_>,
    made: &mut Made,
    fields: &mut Fields,
    gathered: &Gathered,
    at: u32,
    own: Option<u32>,
    typed: &Typed,
) -> Result<(), Halt>
    ensures { Comes (told_of around.now) (spec.declared (context_of around.now) gathered.now at own typed.now fields.old made.old) (λ _. fields.new) result made.new }
{
    match look(alloc, around, made, typed) {
        Ok(()) => (),
        Err(halt) => return Err(halt),
    }
    match add_with_type(alloc, around, made, fields, gathered, at, own, typed) {
        Ok(()) => Ok(()),
        Err(_) => Err(Halt::NoMemory),
    }
}

fn add_with_width(
    alloc: Global,
    around: &Around<'_>,
    made: &mut Made,
    fields: &mut Fields,
    gathered: &Gathered,
    at: u32,
    own: Option<u32>,
    typed: &Typed,
    width: Constant,
) -> Result<(), AllocError>
    ensures { OnOk result ((fields.new, made.new) ≡ spec.with_width (context_of around.now) gathered.now at own typed.now width fields.old made.old) }
{
    let parts = parts(alloc, around, gathered, at, own, typed, width, false)?;
    let done = add(alloc, around, made, fields, own, &parts);
    drop(parts);
    done
}

fn add_judged(
    alloc: Global,
    around: &Around<'_>,
    made: &mut Made,
    fields: &mut Fields,
    gathered: &Gathered,
    at: u32,
    own: Option<u32>,
    typed: &Typed,
    begins: u32,
    width: &Judged,
) -> Result<(), AllocError>
    ensures { OnOk result ((fields.new, made.new) ≡ spec.judged_width (context_of around.now) gathered.now at own typed.now begins width.now fields.old made.old) }
{
    let value = needed(alloc, made, begins, width)?;
    let width = constant_of(value);
    add_with_width(alloc, around, made, fields, gathered, at, own, typed, width)
}

/// A bit-field whose width begins with the token `begins` and is judged so, likewise.
pub fn add_bits(
    alloc: Global,
    around: &Around<'_>,
    made: &mut Made,
    fields: &mut Fields,
    gathered: &Gathered,
    at: u32,
    own: Option<u32>,
    typed: &Typed,
    begins: u32,
    width: &Judged,
) -> Result<(), Halt>
    ensures { Comes (told_of around.now) (spec.bits (context_of around.now) gathered.now at own typed.now begins width.now fields.old made.old) (λ _. fields.new) result made.new }
{
    match look_at(alloc, around, made, &typed.ty) {
        Ok(()) => (),
        Err(halt) => return Err(halt),
    }
    match add_judged(
        alloc, around, made, fields, gathered, at, own, typed, begins, width,
    ) {
        Ok(()) => Ok(()),
        Err(_) => Err(Halt::NoMemory),
    }
}

/// A member declaration without a declarator, whose first token is `at` and whose specifiers specify this type: an anonymous structure or
/// union, else its fault, 401, is noted.
pub fn add_bare(
    alloc: Global,
    around: &Around<'_>,
    made: &mut Made,
    fields: &mut Fields,
    gathered: &Gathered,
    at: u32,
    typed: &Typed,
) -> Result<(), Halt>
    ensures { Comes (told_of around.now) (spec.bare (context_of around.now) gathered.now at typed.now fields.old made.old) (λ _. fields.new) result made.new }
{
    if let Some(fault) = bare_member(alloc, at, is_bad(&typed.ty), gathered.specified) {
        let Ok(()) = made.faults.push(fault) else {
            return Err(Halt::NoMemory);
        };
        return Ok(());
    }
    add_member(alloc, around, made, fields, gathered, at, None, typed)
}

fn first_text(alloc: Global, names: &[Name]) -> Result<Name, AllocError>
    ensures { IfOk result (λ n. n ≡ spec.first_text names.now) }
{
    match names.first() {
        Some(name) => name.share(),
        None => Name::from_str(alloc, ""),
    }
}

fn withdrawn_entity(alloc: Global, around: &Around<'_>, fault: &Fault) -> Result<Entity, AllocError>
    ensures { IfOk result (λ e. e ≡ spec.withdrawn_entity (context_of around.now) fault.now) }
{
    let name = first_text(alloc, fault.names.as_slice())?;
    let tok = token(around.file, fault.at)?;
    Ok(Entity {
        name,
        kind: EntityKind::Member,
        ty: CType::of(Node::Bad),
        qual: UNQUALIFIED,
        linkage: Linkage::None,
        life: Life::Without,
        value: None,
        anchor: Anchor::Local(tok),
    })
}

fn withdraw(
    alloc: Global,
    around: &Around<'_>,
    made: &mut Made,
    fault: Fault,
) -> Result<(), AllocError>
    ensures { OnOk result (made.new ≡ spec.withdrawn (context_of around.now) fault made.old) }
{
    let entity = withdrawn_entity(alloc, around, &fault)?;
    let Ok(()) = made.faults.push(renumbered(around, fault)) else {
        drop(entity);
        return Err(AllocError);
    };
    made.entities.push(entity)?;
    Ok(())
}

fn withdraw_all(
    alloc: Global,
    around: &Around<'_>,
    made: &mut Made,
    faults: Vec<Fault>,
) -> Result<(), AllocError>
    ensures { OnOk result (made.new ≡ spec.all_withdrawn (context_of around.now) faults.items made.old) }
{
    'faults: for fault in faults {
        withdraw(alloc, around, made, fault)?;
    }
    Ok(())
}

/// The end of a list of members: an array of no size that isn't the last one has the fault 408, which is noted, and no type.
pub(crate) fn end_members(
    alloc: Global,
    around: &Around<'_>,
    made: &mut Made,
    fields: Fields,
) -> Result<Listing<Member>, AllocError>
    ensures { IfOk result (λ ms. (ms, made.new) ≡ spec.list_of (context_of around.now) fields made.old) }
{
    let ClosedFields { members, faults } = fields.close(alloc)?;
    withdraw_all(alloc, around, made, faults.into_vec())?;
    Ok(members)
}
