// Parameters (ISO C11 6.7.6.3), one after another, in a scope of their own.
ghost use Rattle.std.specs.Prelude.{◌≡◌, Some, IfOk, OnOk};
ghost use Rattle.decl_rules.specs.Declarations.{declared};
ghost use Rattle.elab_core.specs.Parameters as spec;
ghost use Rattle.elab_state.specs.Seen.{context_of};
ghost use Rattle.expr_rules.specs.Kinds;
ghost use Rattle.type_data.specs.Types as types_of;

use crate::shapes::{Gathered, Step, Typed};
use crate::specifiers::{is_unset, no_type};
use decl_rules::{DeclParts, declare_one};
use elab_state::{Around, Made, bind, mark, name_at, own_token};
use init_rules::Stack;
use scope_tables::{Anchor, Binding, Entity, Role, ScopeKind};
use shared_text::Name;
use std::alloc::{AllocError, Global};
use type_data::{CType, CheckError, Fault, Node, ParamList, Params, Proto, Qual, Space};
use type_rel::{UNQUALIFIED, is_bad};

fn is_unqualified(qual: Qual) -> bool
    ensures { result ≡ spec.is_unqualified qual }
{
    !(qual.is_const || (qual.is_restrict || qual.is_volatile))
}

fn is_plain(gathered: &Gathered) -> bool
    ensures { result ≡ spec.is_plain gathered.now }
{
    is_unset(gathered.storage)
        && (gathered.thread_at.is_none() && (!gathered.inline && !gathered.noreturn))
}

fn is_void(ty: &CType) -> bool
    ensures { result ≡ Kinds.is_void ty.now }
{
    match ty.node() {
        Node::Void => true,
        _ => false,
    }
}

/// Whether a parameter that stands alone stands for none (p10): it is `void` without a name.
pub fn stands_for_none(gathered: &Gathered, own: Option<u32>, typed: &Typed) -> bool
    ensures { result ≡ spec.stands_for_none gathered.now own typed.now }
{
    is_void(&typed.ty) && (is_unqualified(typed.qual) && (own.is_none() && is_plain(gathered)))
}

fn step_quals(step: &Step) -> Qual
    ensures { result ≡ spec.step_quals step.now }
{
    match step {
        Step::Array(_, qual, _, _) => *qual,
        Step::Bad => UNQUALIFIED,
        Step::Pointer(_, _) => UNQUALIFIED,
        Step::Function(_, _) => UNQUALIFIED,
    }
}

/// The qualifiers in the outermost brackets, where the outermost step is an array.
pub fn quals_of(steps: &Stack<Step>) -> Qual
    ensures { result ≡ spec.bracket_quals steps.now }
{
    match steps.bottom() {
        Some(step) => step_quals(step),
        None => UNQUALIFIED,
    }
}

fn pointer_to(alloc: Global, of: &CType, qual: Qual) -> Result<CType, AllocError>
    ensures { IfOk result (λ t. t ≡ types_of.Pointer_to of.now qual) }
{
    let of = of.share()?;
    CType::pointer(alloc, of, qual)
}

/// The type of a parameter after its adjustment (p7, p8), with these qualifiers in its outermost brackets.
pub fn adjusted(alloc: Global, quals: Qual, typed: Typed) -> Result<Typed, AllocError>
    ensures { IfOk result (λ t. t ≡ spec.adjusted quals typed) }
{
    match typed.ty.node() {
        Node::Array(of, own, _) => {
            let Ok(ty) = pointer_to(alloc, of, *own) else {
                drop(typed);
                return Err(AllocError);
            };
            drop(typed);
            Ok(Typed { ty, qual: quals })
        }
        Node::Function(_, _, _) => {
            let Ok(ty) = pointer_to(alloc, &typed.ty, UNQUALIFIED) else {
                drop(typed);
                return Err(AllocError);
            };
            drop(typed);
            Ok(Typed {
                ty,
                qual: UNQUALIFIED,
            })
        }
        Node::Void => Ok(typed),
        Node::Basic(_) => Ok(typed),
        Node::Enumerated(_) => Ok(typed),
        Node::Tagged(_) => Ok(typed),
        Node::Pointer(_, _) => Ok(typed),
        Node::Bad => Ok(typed),
    }
}

fn own_name(alloc: Global, around: &Around<'_>, own: Option<u32>) -> Result<Name, AllocError>
    ensures { IfOk result (λ n. n ≡ spec.name_of (context_of around.now) own) }
{
    match own {
        Some(at) => name_at(alloc, around.tokens, at),
        None => Name::from_str(alloc, ""),
    }
}

fn parts(
    alloc: Global,
    around: &Around<'_>,
    body: bool,
    gathered: &Gathered,
    at: u32,
    own: Option<u32>,
    typed: Typed,
) -> Result<DeclParts, AllocError>
    ensures { IfOk result (λ d. d ≡ spec.parts (context_of around.now) body gathered.now at own typed) }
{
    let Ok(name) = own_name(alloc, around, own) else {
        drop(typed);
        return Err(AllocError);
    };
    let Ok(tok) = own_token(around, at) else {
        drop(typed);
        return Err(AllocError);
    };
    Ok(DeclParts {
        name,
        at,
        tok,
        made: false,
        storage: gathered.storage,
        inline: gathered.inline,
        noreturn: gathered.noreturn,
        thread: gathered.thread_at.is_some(),
        align: gathered.align.value,
        ty: typed.ty,
        qual: typed.qual,
        scope: ScopeKind::Prototype,
        has_init: false,
        has_body: body,
        has_list: false,
    })
}

pub(crate) fn or_at(place: Option<u32>, at: u32) -> u32
    ensures { result ≡ spec.or_at place at }
{
    match place {
        Some(place) => place,
        None => at,
    }
}

fn first_of(first: Option<u32>, second: Option<u32>) -> Option<u32>
    ensures { result ≡ spec.first_of first second }
{
    match first {
        Some(_) => first,
        None => second,
    }
}

fn place_of(gathered: &Gathered, rule: u16, at: u32) -> u32
    ensures { result ≡ spec.place_of gathered.now rule at }
{
    if rule == 406 {
        return or_at(first_of(gathered.storage_at, gathered.thread_at), at);
    }
    if rule == 416 {
        return or_at(gathered.function_at, at);
    }
    if rule == 417 {
        return or_at(gathered.align.at, at);
    }
    at
}

fn placed(gathered: &Gathered, fault: Fault) -> Fault
    ensures { result ≡ spec.placed gathered.now fault }
{
    let at = place_of(gathered, fault.rule, fault.at);
    Fault {
        rule: fault.rule,
        at,
        names: fault.names,
        types: fault.types,
    }
}

pub(crate) fn bind_entity(alloc: Global, made: &mut Made, entity: &Entity) -> Result<(), AllocError>
    ensures { OnOk result (made.new ≡ spec.bound_entity entity.now made.old) }
{
    let name = entity.name.share()?;
    let copy = entity.share(alloc)?;
    bind(
        alloc,
        made,
        Binding {
            space: Space::Ordinary,
            name,
            entity: copy,
        },
    )
}

fn role_in(body: bool) -> Role
    ensures { result ≡ spec.role_in body }
{
    if body { Role::Defines } else { Role::Declares }
}

/// The token denotes an entity, which is bound in the innermost scope from here on.
pub(crate) fn declare_by(
    alloc: Global,
    around: &Around<'_>,
    made: &mut Made,
    at: u32,
    role: Role,
    entity: Entity,
) -> Result<(), AllocError>
    ensures { OnOk result (made.new ≡ spec.declared_by (context_of around.now) at role entity made.old) }
{
    let Ok(()) = mark(around, made, at, &entity.anchor, role) else {
        drop(entity);
        return Err(AllocError);
    };
    let Ok(()) = bind_entity(alloc, made, &entity) else {
        drop(entity);
        return Err(AllocError);
    };
    made.entities.push(entity)?;
    Ok(())
}

fn declare_if_named(
    alloc: Global,
    around: &Around<'_>,
    made: &mut Made,
    own: Option<u32>,
    role: Role,
    entity: Entity,
) -> Result<(), AllocError>
    ensures { OnOk result (made.new ≡ spec.named (context_of around.now) own role entity made.old) }
{
    match own {
        Some(at) => declare_by(alloc, around, made, at, role, entity),
        None => {
            drop(entity);
            Ok(())
        }
    }
}

fn without_type(decl: &DeclParts) -> Result<DeclParts, AllocError>
    ensures { IfOk result (λ d. d ≡ spec.without_type decl.now) }
{
    let name = decl.name.share()?;
    let tok = decl.tok.copy()?;
    Ok(DeclParts {
        name,
        at: decl.at,
        tok,
        made: decl.made,
        storage: decl.storage,
        inline: decl.inline,
        noreturn: decl.noreturn,
        thread: decl.thread,
        align: decl.align,
        ty: CType::of(Node::Bad),
        qual: decl.qual,
        scope: decl.scope,
        has_init: decl.has_init,
        has_body: decl.has_body,
        has_list: decl.has_list,
    })
}

fn declare_if_sound(
    alloc: Global,
    around: &Around<'_>,
    made: &mut Made,
    at: u32,
    role: Role,
    decl: &DeclParts,
) -> Result<(), AllocError>
    ensures { OnOk result (made.new ≡ spec.refused_entity (context_of around.now) at role (declared made.old.names decl.now made.old.tags) made.old) }
{
    match declare_one(alloc, &made.names, decl, &made.tags) {
        Ok(entity) => declare_by(alloc, around, made, at, role, entity),
        Err(CheckError::Broken(_)) => Ok(()),
        Err(CheckError::NoMemory) => Err(AllocError),
    }
}

// What a name denotes that was refused, where its scope has nothing under it.
fn declare_without_type(
    alloc: Global,
    around: &Around<'_>,
    made: &mut Made,
    at: u32,
    role: Role,
    decl: &DeclParts,
) -> Result<(), AllocError>
    ensures { OnOk result (made.new ≡ spec.declared_without_type (context_of around.now) role decl.now at made.old) }
{
    let decl = without_type(decl)?;
    let done = declare_if_sound(alloc, around, made, at, role, &decl);
    drop(decl);
    done
}

pub(crate) fn anchor_here(made: &Made, name: &Name) -> Result<Option<Anchor>, AllocError>
    ensures { IfOk result (λ a. a ≡ spec.anchor_here name.now made.now) }
{
    match made.names.find_here(&Space::Ordinary, name.as_str()) {
        Some(entity) => {
            let anchor = entity.anchor.share()?;
            Ok(Some(anchor))
        }
        None => Ok(None),
    }
}

// What a declaration leaves that is refused.
pub(crate) fn refuse(
    alloc: Global,
    around: &Around<'_>,
    made: &mut Made,
    own: Option<u32>,
    role: Role,
    decl: &DeclParts,
) -> Result<(), AllocError>
    ensures { OnOk result (made.new ≡ spec.refused (context_of around.now) role decl.now own made.old) }
{
    let Some(at) = own else {
        return Ok(());
    };
    match anchor_here(made, &decl.name)? {
        Some(anchor) => mark(around, made, at, &anchor, role),
        None => declare_without_type(alloc, around, made, at, role, decl),
    }
}

fn refused(
    alloc: Global,
    around: &Around<'_>,
    made: &mut Made,
    own: Option<u32>,
    role: Role,
    decl: &DeclParts,
    fault: Fault,
) -> Result<Typed, AllocError>
    ensures { IfOk result (λ t. (t, made.new) ≡ spec.refused_with (context_of around.now) role decl.now own fault made.old) }
{
    made.faults.push(fault)?;
    refuse(alloc, around, made, own, role, decl)?;
    Ok(no_type())
}

fn accepted(
    alloc: Global,
    around: &Around<'_>,
    made: &mut Made,
    own: Option<u32>,
    role: Role,
    qual: Qual,
    entity: Entity,
) -> Result<Typed, AllocError>
    ensures { IfOk result (λ t. (t, made.new) ≡ spec.accepted (context_of around.now) role own qual entity made.old) }
{
    let Ok(ty) = entity.ty.share() else {
        drop(entity);
        return Err(AllocError);
    };
    declare_if_named(alloc, around, made, own, role, entity)?;
    Ok(Typed { ty, qual })
}

fn declare_parameter(
    alloc: Global,
    around: &Around<'_>,
    made: &mut Made,
    gathered: &Gathered,
    own: Option<u32>,
    role: Role,
    decl: &DeclParts,
) -> Result<Typed, AllocError>
    ensures { IfOk result (λ t. (t, made.new) ≡ spec.declared_as (context_of around.now) role gathered.now decl.now own made.old) }
{
    match declare_one(alloc, &made.names, decl, &made.tags) {
        Ok(entity) => accepted(alloc, around, made, own, role, decl.qual, entity),
        Err(CheckError::Broken(fault)) => {
            let fault = placed(gathered, fault);
            refused(alloc, around, made, own, role, decl, fault)
        }
        Err(CheckError::NoMemory) => Err(AllocError),
    }
}

/// A parameter of this type after its adjustment, whose specifiers were read: `at` is its name, or its first token where it has none; `body`
/// says that it is one of a function definition. What has a fault has no type; the fault is noted.
pub fn parameter_of(
    alloc: Global,
    around: &Around<'_>,
    made: &mut Made,
    body: bool,
    gathered: &Gathered,
    at: u32,
    own: Option<u32>,
    typed: Typed,
) -> Result<Typed, AllocError>
    ensures { IfOk result (λ t. (t, made.new) ≡ spec.parameter_of (context_of around.now) body gathered.now at own typed made.old) }
{
    let decl = parts(alloc, around, body, gathered, at, own, typed)?;
    let done = declare_parameter(alloc, around, made, gathered, own, role_in(body), &decl);
    drop(decl);
    done
}

/// Likewise out of a function definition.
pub fn parameter(
    alloc: Global,
    around: &Around<'_>,
    made: &mut Made,
    gathered: &Gathered,
    at: u32,
    own: Option<u32>,
    typed: Typed,
) -> Result<Typed, AllocError>
    ensures { IfOk result (λ t. (t, made.new) ≡ spec.parameter (context_of around.now) gathered.now at own typed made.old) }
{
    parameter_of(alloc, around, made, false, gathered, at, own, typed)
}

fn sound(alloc: Global, typed: Typed, list: Params) -> Result<Option<Params>, AllocError>
    ensures { IfOk result (λ ps. ps ≡ spec.sound typed list) }
{
    if is_bad(&typed.ty) {
        drop(typed);
        drop(list);
        return Ok(None);
    }
    let list = Params::first(alloc, typed.ty, typed.qual, list)?;
    Ok(Some(list))
}

fn in_front(
    alloc: Global,
    typed: Option<Typed>,
    list: Option<Params>,
) -> Result<Option<Params>, AllocError>
    ensures { IfOk result (λ ps. ps ≡ spec.in_front typed list) }
{
    let Some(typed) = typed else {
        return Ok(list);
    };
    match list {
        Some(list) => sound(alloc, typed, list),
        None => {
            drop(typed);
            Ok(None)
        }
    }
}

/// What a list of parameters derives, whose types stand on the stack, the last one on top: none where one stands for no parameter.
pub fn function_step(
    alloc: Global,
    proto: Proto,
    types: Stack<Option<Typed>>,
) -> Result<Step, AllocError>
    ensures { IfOk result (λ s. s ≡ spec.function_step proto (spec.all_in_front types (Some types_of.No_more))) }
{
    let mut left = types;
    let mut list = Some(Params::of(ParamList::Empty));
    'types: while let Some(typed) = left.pop() {
        list = in_front(alloc, typed, list)?;
    }
    match list {
        Some(list) => Ok(Step::Function(list, proto)),
        None => Ok(Step::Bad),
    }
}
