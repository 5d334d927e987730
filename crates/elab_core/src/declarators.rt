// Declarators of declarations (ISO C11 6.7p5), and their initializers (6.7.9).
ghost use Rattle.std.specs.Prelude.{◌≡◌, Ok, Err, IfOk, OnOk, option_map};
ghost use Rattle.elab_core.specs.Declarators as spec;
ghost use Rattle.elab_state.specs.Comes.{Comes, Leads};
ghost use Rattle.elab_state.specs.Seen.{context_of, told_of};

use crate::braced::is_file;
use crate::parameters::{bind_entity, declare_by, refuse};
use crate::shapes::{Filling, Gathered, Typed};
use crate::specifiers::is_function;
use decl_rules::{DeclParts, Storage, declare_one};
use elab_state::{Around, Halt, Made, look_at, look_deep, name_at, number, own_token};
use head_rules::{Declaring, Places, how_of, needs_constants, place_of, refused_how, role_of};
use init_rules::{InitState, Stack, completed};
use scope_tables::{Entity, How, Role, ScopeKind, Stated};
use std::alloc::{AllocError, Global};
use type_data::{CType, CheckError, Fault, Node, Space};
use type_rel::{is_bad, is_open_array};

/// What the rows of a declarator read, whose name is the token `at`, which has this type, and an initializer, a body, or a list of parameters
/// next to the name where `init`, `body` and `list` say so.
pub fn decl_parts(
    alloc: Global,
    around: &Around<'_>,
    gathered: &Gathered,
    at: u32,
    typed: Typed,
    init: bool,
    body: bool,
    list: bool,
    scope: ScopeKind,
) -> Result<DeclParts, AllocError>
    ensures { IfOk result (λ d. d ≡ spec.parts (context_of around.now) gathered.now at typed init body list scope) }
{
    let Ok(name) = name_at(alloc, around.tokens, at) else {
        drop(typed);
        return Err(AllocError);
    };
    let Ok(tok) = own_token(around, at) else {
        drop(typed);
        return Err(AllocError);
    };
    Ok(DeclParts {
        name,
        at,
        tok,
        made: false,
        storage: gathered.storage,
        inline: gathered.inline,
        noreturn: gathered.noreturn,
        thread: gathered.thread_at.is_some(),
        align: gathered.align.value,
        ty: typed.ty,
        qual: typed.qual,
        scope,
        has_init: init,
        has_body: body,
        has_list: list,
    })
}

fn is_typedef(storage: Storage) -> bool
    ensures { result ≡ spec.is_typedef storage }
{
    match storage {
        Storage::Typedef => true,
        Storage::None => false,
        Storage::Extern => false,
        Storage::Static => false,
        Storage::Auto => false,
        Storage::Register => false,
    }
}

pub(crate) fn is_extern(storage: Storage) -> bool
    ensures { result ≡ spec.is_extern storage }
{
    match storage {
        Storage::Extern => true,
        Storage::None => false,
        Storage::Typedef => false,
        Storage::Static => false,
        Storage::Auto => false,
        Storage::Register => false,
    }
}

fn declaring(decl: &DeclParts) -> Declaring
    ensures { result ≡ spec.declaring decl.now }
{
    Declaring {
        is_typedef: is_typedef(decl.storage),
        is_function: is_function(&decl.ty),
        is_extern: is_extern(decl.storage),
        has_init: decl.has_init,
        has_body: decl.has_body,
    }
}

/// Where faults of specifiers stand, in a declaration whose first token is `begins`.
pub fn places(begins: u32, gathered: &Gathered) -> Places
    ensures { result ≡ spec.places begins gathered.now }
{
    Places {
        begins,
        storage: gathered.storage_at,
        thread: gathered.thread_at,
        function: gathered.function_at,
        align: gathered.align.at,
    }
}

fn placed(places: Places, fault: Fault) -> Fault
    ensures { result ≡ spec.placed places fault }
{
    let at = place_of(places, fault.rule, fault.at);
    Fault {
        rule: fault.rule,
        at,
        names: fault.names,
        types: fault.types,
    }
}

fn reads_type(decl: &DeclParts) -> bool
    ensures { result ≡ spec.reads_type decl.now }
{
    decl.align.is_some() || (decl.has_init || !is_file(decl.scope))
}

fn result_of(ty: &CType) -> Result<CType, AllocError>
    ensures { IfOk result (λ t. t ≡ spec.result_of ty.now) }
{
    match ty.node() {
        Node::Function(of, _, _) => of.share(),
        Node::Void => Ok(CType::of(Node::Void)),
        Node::Basic(_) => Ok(CType::of(Node::Void)),
        Node::Enumerated(_) => Ok(CType::of(Node::Void)),
        Node::Tagged(_) => Ok(CType::of(Node::Void)),
        Node::Pointer(_, _) => Ok(CType::of(Node::Void)),
        Node::Array(_, _, _) => Ok(CType::of(Node::Void)),
        Node::Bad => Ok(CType::of(Node::Void)),
    }
}

fn look_at_type(
    alloc: Global,
    around: &Around<'_>,
    made: &mut Made,
    decl: &DeclParts,
) -> Result<(), Halt>
    ensures { Leads (told_of around.now) (spec.look_type (context_of around.now) decl.now made.old) result made.new }
{
    if !reads_type(decl) {
        return Ok(());
    }
    look_at(alloc, around, made, &decl.ty)
}

fn look_at_result(
    alloc: Global,
    around: &Around<'_>,
    made: &mut Made,
    decl: &DeclParts,
) -> Result<(), Halt>
    ensures { Leads (told_of around.now) (spec.look_result (context_of around.now) decl.now made.old) result made.new }
{
    if !decl.has_body {
        return Ok(());
    }
    let Ok(ty) = result_of(&decl.ty) else {
        return Err(Halt::NoMemory);
    };
    let done = look_at(alloc, around, made, &ty);
    drop(ty);
    done
}

fn look(alloc: Global, around: &Around<'_>, made: &mut Made, decl: &DeclParts) -> Result<(), Halt>
    ensures { Leads (told_of around.now) (spec.looked (context_of around.now) decl.now made.old) result made.new }
{
    match look_at_type(alloc, around, made, decl) {
        Ok(()) => (),
        Err(halt) => return Err(halt),
    }
    look_at_result(alloc, around, made, decl)
}

fn is_first(decl: &DeclParts, made: &Made) -> bool
    ensures { result ≡ spec.is_first decl.now made.now }
{
    made.names
        .find_here(&Space::Ordinary, decl.name.as_str())
        .is_none()
}

fn role(decl: &DeclParts, made: &Made) -> Role
    ensures { result ≡ spec.role decl.now made.now }
{
    role_of(declaring(decl), is_first(decl, made))
}

fn refuse_with(
    alloc: Global,
    around: &Around<'_>,
    made: &mut Made,
    at: u32,
    role: Role,
    decl: &DeclParts,
    fault: Fault,
) -> Result<Option<Entity>, AllocError>
    ensures { IfOk result (λ e. (e, made.new) ≡ spec.refused_with (context_of around.now) at role decl.now fault made.old) }
{
    made.faults.push(fault)?;
    refuse(alloc, around, made, Some(at), role, decl)?;
    Ok(None)
}

fn accept(
    alloc: Global,
    around: &Around<'_>,
    made: &mut Made,
    at: u32,
    role: Role,
    entity: Entity,
) -> Result<Option<Entity>, AllocError>
    ensures { IfOk result (λ e. (e, made.new) ≡ spec.accepted (context_of around.now) at role entity made.old) }
{
    let Ok(copy) = entity.share(alloc) else {
        drop(entity);
        return Err(AllocError);
    };
    let Ok(()) = declare_by(alloc, around, made, at, role, entity) else {
        drop(copy);
        return Err(AllocError);
    };
    Ok(Some(copy))
}

fn declare_as(
    alloc: Global,
    around: &Around<'_>,
    made: &mut Made,
    places: Places,
    at: u32,
    role: Role,
    decl: &DeclParts,
) -> Result<Option<Entity>, AllocError>
    ensures { IfOk result (λ e. (e, made.new) ≡ spec.declared_as (context_of around.now) places at role decl.now made.old) }
{
    match declare_one(alloc, &made.names, decl, &made.tags) {
        Ok(entity) => accept(alloc, around, made, at, role, entity),
        Err(CheckError::Broken(fault)) => {
            let fault = placed(places, fault);
            refuse_with(alloc, around, made, at, role, decl, fault)
        }
        Err(CheckError::NoMemory) => Err(AllocError),
    }
}

fn declare(
    alloc: Global,
    around: &Around<'_>,
    made: &mut Made,
    places: Places,
    at: u32,
    decl: &DeclParts,
) -> Result<Option<Entity>, AllocError>
    ensures { IfOk result (λ e. (e, made.new) ≡ spec.declared (context_of around.now) places at decl.now made.old) }
{
    let role = role(decl, made);
    declare_as(alloc, around, made, places, at, role, decl)
}

/// What a declarator declares, whose name is the token `at`: the entity, or none where it is refused, whose fault is noted. What is known of
/// the tags that its rows test is asked for.
pub fn declare_name(
    alloc: Global,
    around: &Around<'_>,
    made: &mut Made,
    places: Places,
    at: u32,
    decl: &DeclParts,
) -> Result<Option<Entity>, Halt>
    ensures { Comes (told_of around.now) (spec.declarator (context_of around.now) places at decl.now made.old) (λ e. e) result made.new }
{
    match look(alloc, around, made, decl) {
        Ok(()) => (),
        Err(halt) => return Err(halt),
    }
    match declare(alloc, around, made, places, at, decl) {
        Ok(entity) => Ok(entity),
        Err(_) => Err(Halt::NoMemory),
    }
}

fn is_sound(entity: &Option<Entity>) -> bool
    ensures { result ≡ spec.is_sound entity.now }
{
    match entity {
        Some(entity) => !is_bad(&entity.ty),
        None => false,
    }
}

fn how(decl: Declaring, entity: &Option<Entity>) -> How
    ensures { result ≡ spec.how decl entity.now }
{
    if is_sound(entity) {
        return how_of(decl);
    }
    refused_how(how_of(decl))
}

/// What a declarator states of its name, which declares this entity, or none where it was refused: nothing but at file scope, of an object
/// or function.
pub fn stated(
    around: &Around<'_>,
    decl: &DeclParts,
    entity: &Option<Entity>,
) -> Result<Option<Stated>, AllocError>
    ensures { IfOk result (λ s. s ≡ spec.stated (context_of around.now) decl.now entity.now) }
{
    if is_file(decl.scope) && !is_typedef(decl.storage) {
        let name = decl.name.share()?;
        let at = number(around, decl.at)?;
        return Ok(Some(Stated {
            name,
            at,
            how: how(declaring(decl), entity),
        }));
    }
    Ok(None)
}

fn filling_of(alloc: Global, constant: bool, ty: CType) -> Filling
    ensures { result ≡ spec.filling_of constant ty }
{
    let faulty = is_bad(&ty);
    Filling {
        state: InitState {
            ty,
            open_places: Stack::new(alloc),
            at: 0,
            constant,
            designating: false,
            reached: 0,
        },
        faulty,
    }
}

fn first_filling(alloc: Global, entity: &Option<Entity>) -> Result<Filling, AllocError>
    ensures { IfOk result (λ f. f ≡ spec.first_filling entity.now) }
{
    match entity {
        Some(entity) => {
            let ty = entity.ty.share()?;
            Ok(filling_of(alloc, needs_constants(entity.life), ty))
        }
        None => Ok(filling_of(alloc, false, CType::of(Node::Bad))),
    }
}

fn look_inside(
    alloc: Global,
    around: &Around<'_>,
    made: &mut Made,
    entity: &Option<Entity>,
) -> Result<(), Halt>
    ensures { Leads (told_of around.now) (spec.look_inside (context_of around.now) entity.now made.old) result made.new }
{
    match entity {
        Some(entity) => look_deep(alloc, around, made, &entity.ty),
        None => Ok(()),
    }
}

/// The initializer of what a declarator declares, before its first piece. What is known of the tags that objects of the type hold is asked
/// for. Of what was refused nothing is checked.
pub fn begin_init(
    alloc: Global,
    around: &Around<'_>,
    made: &mut Made,
    entity: &Option<Entity>,
) -> Result<Filling, Halt>
    ensures { Comes (told_of around.now) (spec.begun (context_of around.now) entity.now made.old) (λ f. f) result made.new }
{
    match look_inside(alloc, around, made, entity) {
        Ok(()) => (),
        Err(halt) => return Err(halt),
    }
    match first_filling(alloc, entity) {
        Ok(filling) => Ok(filling),
        Err(_) => Err(Halt::NoMemory),
    }
}

fn with_type(entity: Entity, ty: CType) -> Entity
    ensures { result ≡ spec.with_type entity ty }
{
    Entity {
        name: entity.name,
        kind: entity.kind,
        ty,
        qual: entity.qual,
        linkage: entity.linkage,
        life: entity.life,
        value: entity.value,
        anchor: entity.anchor,
    }
}

fn restate(alloc: Global, made: &mut Made, entity: Entity) -> Result<(), AllocError>
    ensures { OnOk result (made.new ≡ spec.restated entity made.old) }
{
    let Ok(()) = bind_entity(alloc, made, &entity) else {
        drop(entity);
        return Err(AllocError);
    };
    made.entities.push(entity)?;
    Ok(())
}

fn complete(
    alloc: Global,
    made: &mut Made,
    entity: Entity,
    filling: &Filling,
) -> Result<(), AllocError>
    ensures { OnOk result (made.new ≡ spec.sized entity filling.now made.old) }
{
    if !is_open_array(&entity.ty) {
        drop(entity);
        return Ok(());
    }
    let Ok(ty) = completed(alloc, &filling.state) else {
        drop(entity);
        return Err(AllocError);
    };
    restate(alloc, made, with_type(entity, ty))
}

/// Behind the last piece of the initializer of what a declarator declares: an array of no size has the one that it tells (6.7.9p22).
pub fn end_init(
    alloc: Global,
    made: &mut Made,
    entity: Option<Entity>,
    filling: &Filling,
) -> Result<(), AllocError>
    ensures { OnOk result (made.new ≡ spec.initialized entity filling.now made.old) }
{
    match entity {
        Some(entity) => complete(alloc, made, entity, filling),
        None => Ok(()),
    }
}
