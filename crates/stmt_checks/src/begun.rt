// Where a body begins (ISO C11 6.2.1p4, 6.4.2.2p1, 6.9.1p9).
ghost use Rattle.std.specs.Prelude.{◌≡◌, ◌+◌, [], length, IfOk, OnOk, None, option_map};
ghost use Rattle.elab_state.specs.Doings.{with_entity};
ghost use Rattle.elab_state.specs.Seen.{context_of};
ghost use Rattle.scope_tables.specs.Scopes.{declared_in, entered};
ghost use Rattle.scope_tables.specs.declared.entities.ScopeKind.TheVariants as scope;
ghost use Rattle.stmt_acts.specs.Shown.{acts_of};
ghost use Rattle.stmt_checks.specs.Begun as spec;
ghost use Rattle.stmt_checks.specs.Labels.{all_labels};

use crate::labels::note_all;
use crate::standing::Standing;
use elab_state::{Around, Made, own_token, share_binding};
use scope_tables::{
    Anchor, Binding, Entity, EntityKind, HeadMeaning, Life, Linkage, ScopeKind, Scopes,
};
use shared_text::Name;
use std::alloc::{AllocError, Global};
use stmt_acts::Act;
use stmt_rules::Switches;
use type_data::{Basic, CType, Extent, Node, Qual, Space, Tags};

/// What is the same in all of a body: the type of the function, and all of its labels.
#[derive(Drop)]
pub(crate) struct Function {
    pub(crate) ty: CType,
    pub(crate) labels: Scopes,
}

// Binds this too.
fn declare(alloc: Global, names: &mut Scopes, binding: &Binding) -> Result<(), AllocError>
    ensures { OnOk result (names.new ≡ declared_in binding.now names.old) }
{
    if names.depth() == 0 {
        return Ok(());
    }
    let copy = share_binding(alloc, binding)?;
    let before = names.declare(copy.space, copy.name, copy.entity)?;
    drop(before);
    Ok(())
}

fn declare_all(alloc: Global, names: &mut Scopes, bindings: &[Binding]) -> Result<(), AllocError>
    ensures { OnOk result (names.new ≡ spec.all_declared bindings.now names.old) }
{
    let mut rest = bindings;
    'bindings: while let Some((binding, others)) = rest.split_first() {
        rest = others;
        declare(alloc, names, binding)?;
    }
    Ok(())
}

fn if_named<'a>(binding: &'a Binding, name: &Name) -> Option<&'a Entity>
    ensures { option_map (λ e. e.now) result ≡ spec.if_named name.now binding.now }
{
    if binding.name.as_str() == name.as_str() {
        return Some(&binding.entity);
    }
    None
}

fn ordinary<'a>(binding: &'a Binding, name: &Name) -> Option<&'a Entity>
    ensures { option_map (λ e. e.now) result ≡ spec.ordinary_by binding.now.space name.now binding.now }
{
    match binding.space {
        Space::Ordinary => if_named(binding, name),
        Space::Labels => None,
        Space::Tags => None,
        Space::Members(_) => None,
    }
}

// The last of these that binds the name.
fn last_named<'a>(bindings: &'a [Binding], name: &Name) -> Option<&'a Entity>
    ensures { option_map (λ e. e.now) result ≡ spec.last_named name.now None bindings.now }
{
    let mut last = None;
    let mut rest = bindings;
    'bindings: while let Some((binding, others)) = rest.split_first() {
        rest = others;
        let Some(entity) = ordinary(binding, name) else {
            continue;
        };
        last = Some(entity);
    }
    last
}

fn function_of(head: &HeadMeaning) -> Option<&Entity>
    ensures { option_map (λ e. e.now) result ≡ spec.function_of head.now }
{
    match head.stated.as_slice().first() {
        Some(stated) => last_named(head.declared.as_slice(), &stated.name),
        None => None,
    }
}

fn type_of(entity: Option<&Entity>) -> Result<CType, AllocError>
    ensures { IfOk result (λ t. t ≡ spec.type_of (option_map (λ e. e.now) entity.entry)) }
{
    match entity {
        Some(entity) => entity.ty.share(),
        None => Ok(CType::of(Node::Bad)),
    }
}

fn name_of(alloc: Global, entity: Option<&Entity>) -> Result<Name, AllocError>
    ensures { IfOk result (λ n. n ≡ spec.name_of (option_map (λ e. e.now) entity.entry)) }
{
    match entity {
        Some(entity) => entity.name.share(),
        None => Name::from_str(alloc, ""),
    }
}

fn note_tag(alloc: Global, tags: &mut Tags, kind: &EntityKind) -> Result<(), AllocError>
    ensures { OnOk result (tags.new ≡ spec.tagged kind.now tags.old) }
{
    match kind {
        EntityKind::Tag(id, info) => {
            let id = id.share()?;
            let info = info.share(alloc)?;
            tags.insert(id, info)?;
            Ok(())
        }
        EntityKind::Object => Ok(()),
        EntityKind::Function => Ok(()),
        EntityKind::Typedef => Ok(()),
        EntityKind::Enumerator => Ok(()),
        EntityKind::Member => Ok(()),
        EntityKind::Label => Ok(()),
    }
}

fn note_tags(alloc: Global, tags: &mut Tags, entities: &[Entity]) -> Result<(), AllocError>
    ensures { OnOk result (tags.new ≡ spec.all_tags entities.now tags.old) }
{
    let mut rest = entities;
    'entities: while let Some((entity, others)) = rest.split_first() {
        rest = others;
        note_tag(alloc, tags, &entity.kind)?;
    }
    Ok(())
}

fn text_size(name: &Name) -> Result<u64, AllocError>
    ensures { IfOk result (λ n. n ≡ length name.now + 1) }
{
    let size = name.as_str().len() as u64;
    match size.checked_add(1) {
        Some(size) => Ok(size),
        None => Err(AllocError),
    }
}

#[tactic(auto, unfolding(crate::specs::Begun::text_type))]
fn text_type(alloc: Global, name: &Name) -> Result<CType, AllocError>
    ensures { IfOk result (λ t. t ≡ spec.text_type name.now) }
{
    let size = text_size(name)?;
    let constant = Qual {
        is_const: true,
        is_restrict: false,
        is_volatile: false,
    };
    let char = CType::of(Node::Basic(Basic::Char));
    let ty = CType::array(alloc, char, constant, Extent::Size(size))?;
    Ok(ty)
}

// `__func__` in a function of this name.
fn func(alloc: Global, around: &Around<'_>, function: &Name) -> Result<Entity, AllocError>
    ensures { IfOk result (λ e. e ≡ spec.func (context_of around.now) function.now) }
{
    let name = Name::from_str(alloc, "__func__")?;
    let tok = own_token(around, 0)?;
    let ty = text_type(alloc, function)?;
    Ok(Entity {
        name,
        kind: EntityKind::Object,
        ty,
        qual: Qual {
            is_const: false,
            is_restrict: false,
            is_volatile: false,
        },
        linkage: Linkage::None,
        life: Life::Static,
        value: None,
        anchor: Anchor::Local(tok),
    })
}

fn declare_func(
    alloc: Global,
    around: &Around<'_>,
    names: &mut Scopes,
    function: &Name,
) -> Result<(), AllocError>
    ensures { OnOk result (names.new ≡ declared_in (spec.func_binding (context_of around.now) function.now) names.old) }
{
    if names.depth() == 0 {
        return Ok(());
    }
    let name = Name::from_str(alloc, "__func__")?;
    let entity = func(alloc, around, function)?;
    let before = names.declare(Space::Ordinary, name, entity)?;
    drop(before);
    Ok(())
}

// What is visible at the front of a body.
fn open_names(
    alloc: Global,
    around: &Around<'_>,
    head: &HeadMeaning,
    names: &mut Scopes,
    function: &Name,
) -> Result<(), AllocError>
    ensures { OnOk result (names.new ≡ spec.names (context_of around.now) head.now function.now names.old) }
{
    declare_all(alloc, names, head.declared.as_slice())?;
    names.enter(ScopeKind::Block)?;
    declare_all(alloc, names, head.params.as_slice())?;
    declare_func(alloc, around, names, function)
}

fn add_func(
    alloc: Global,
    around: &Around<'_>,
    made: &mut Made,
    function: &Name,
) -> Result<(), AllocError>
    ensures { OnOk result (made.new ≡ with_entity (spec.func (context_of around.now) function.now) made.old) }
{
    let func = func(alloc, around, function)?;
    made.entities.push(func)?;
    Ok(())
}

fn open_made(
    alloc: Global,
    around: &Around<'_>,
    head: &HeadMeaning,
    made: &mut Made,
    function: &Name,
) -> Result<(), AllocError>
    ensures { OnOk result (made.new ≡ spec.made (context_of around.now) head.now function.now made.old) }
{
    open_names(alloc, around, head, &mut made.names, function)?;
    note_tags(alloc, &mut made.tags, head.entities.as_slice())?;
    add_func(alloc, around, made, function)
}

/// The body of this head's function begins: the parameters and `__func__` are declared in its block, and what the head declares at file scope
/// stands round it.
pub(crate) fn open(
    alloc: Global,
    around: &Around<'_>,
    head: &HeadMeaning,
    standing: &mut Standing,
) -> Result<(), AllocError>
    ensures { OnOk result (standing.new ≡ spec.opened (context_of around.now) head.now standing.old) }
{
    let function = name_of(alloc, function_of(head))?;
    open_made(alloc, around, head, &mut standing.made, &function)
}

fn function_scope(alloc: Global) -> Result<Scopes, AllocError>
    ensures { IfOk result (λ s. s ≡ entered scope.Function []) }
{
    let mut labels = Scopes::new(alloc);
    labels.enter(ScopeKind::Function)?;
    Ok(labels)
}

/// Nothing is known yet.
pub(crate) fn nothing(alloc: Global) -> Result<Standing, AllocError>
    ensures { IfOk result (λ st. st ≡ spec.nothing) }
{
    let labels = function_scope(alloc)?;
    let made = Made::begin(alloc, ScopeKind::File, Tags::new(alloc))?;
    Ok(Standing {
        made,
        switches: Switches::new(alloc),
        labels,
    })
}

impl Function {
    /// The function of this head, whose body takes these steps.
    pub(crate) fn of(
        alloc: Global,
        around: &Around<'_>,
        head: &HeadMeaning,
        acts: &[Act<'_>],
    ) -> Result<Function, AllocError>
        ensures ty { IfOk result (λ f. f.ty ≡ spec.type_of (spec.function_of head.now)) }
        ensures labels { IfOk result (λ f. f.labels ≡ all_labels (context_of around.now) (acts_of acts.now) (entered scope.Function [])) }
    {
        let mut labels = function_scope(alloc)?;
        note_all(alloc, around, &mut labels, acts)?;
        let ty = type_of(function_of(head))?;
        Ok(Function { ty, labels })
    }
}
