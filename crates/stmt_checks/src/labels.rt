// The labels of a function (ISO C11 6.2.1p3, 6.8.1, 6.8.6.1).
ghost use Rattle.std.specs.Prelude.{◌≡◌, IfOk, OnOk, option_map};
ghost use Rattle.elab_state.specs.Seen.{context_of};
ghost use Rattle.elab_state.specs.Tokens.{spelling as spelling_of};
ghost use Rattle.stmt_acts.specs.Shown.{act_of, acts_of};
ghost use Rattle.stmt_checks.specs.Labels as spec;

use crate::standing::{Standing, tell};
use elab_state::{Around, mark, name_at, own_token};
use scope_tables::{Anchor, Entity, EntityKind, Life, Linkage, Role, Scopes};
use shared_text::Name;
use std::alloc::{AllocError, Global};
use stmt_acts::Act;
use stmt_rules::{check_goto, check_label};
use type_data::{CType, Node, Qual, Space};

// The label whose name this token is.
fn label(around: &Around<'_>, name: &Name, at: u32) -> Result<Entity, AllocError>
    requires name { name.now ≡ spelling_of (context_of around.now).tokens at }
    ensures { IfOk result (λ e. e ≡ spec.label (context_of around.now) at) }
{
    let name = name.share()?;
    let tok = own_token(around, at)?;
    Ok(Entity {
        name,
        kind: EntityKind::Label,
        ty: CType::of(Node::Bad),
        qual: Qual {
            is_const: false,
            is_restrict: false,
            is_volatile: false,
        },
        linkage: Linkage::None,
        life: Life::Without,
        value: None,
        anchor: Anchor::Local(tok),
    })
}

fn share(alloc: Global, entity: Option<&Entity>) -> Result<Option<Entity>, AllocError>
    ensures { IfOk result (λ copy. copy ≡ option_map (λ e. e.now) entity.entry) }
{
    match entity {
        Some(entity) => {
            let entity = entity.share(alloc)?;
            Ok(Some(entity))
        }
        None => Ok(None),
    }
}

fn bind(around: &Around<'_>, labels: &mut Scopes, name: Name, at: u32) -> Result<(), AllocError>
    requires name { name ≡ spelling_of (context_of around.now).tokens at }
    ensures { OnOk result (labels.new ≡ spec.declared_label (context_of around.now) at labels.old) }
{
    if labels.depth() == 0 {
        return Ok(());
    }
    let entity = label(around, &name, at)?;
    let before = labels.declare(Space::Labels, name, entity)?;
    drop(before);
    Ok(())
}

// A label, unless there is one of its name.
fn note(alloc: Global, around: &Around<'_>, labels: &mut Scopes, at: u32) -> Result<(), AllocError>
    ensures { OnOk result (labels.new ≡ spec.with_label (context_of around.now) at labels.old) }
{
    let name = name_at(alloc, around.tokens, at)?;
    if labels.find_here(&Space::Labels, name.as_str()).is_some() {
        return Ok(());
    }
    bind(around, labels, name, at)
}

fn label_in(act: Act<'_>) -> Option<u32>
    ensures { result ≡ spec.label_in (act_of act.entry) }
{
    match act {
        Act::Enter => None,
        Act::Leave => None,
        Act::Evaluate(_) => None,
        Act::IfTest(_, _) => None,
        Act::LoopTest(_, _) => None,
        Act::SwitchOn(_, _) => None,
        Act::EndSwitch => None,
        Act::CaseLabel(_, _) => None,
        Act::DefaultLabel(_) => None,
        Act::Label(at) => Some(at),
        Act::Goto(_) => None,
        Act::Continue(_, _) => None,
        Act::Break(_, _) => None,
        Act::Return(_, _) => None,
        Act::Declare(_) => None,
        Act::DeclareInFor(_) => None,
    }
}

fn note_act(
    alloc: Global,
    around: &Around<'_>,
    labels: &mut Scopes,
    act: Act<'_>,
) -> Result<(), AllocError>
    ensures { OnOk result (labels.new ≡ spec.labelled_by (context_of around.now) (spec.label_in (act_of act.entry)) labels.old) }
{
    match label_in(act) {
        Some(at) => note(alloc, around, labels, at),
        None => Ok(()),
    }
}

/// All labels of a body are among these.
pub(crate) fn note_all(
    alloc: Global,
    around: &Around<'_>,
    labels: &mut Scopes,
    acts: &[Act<'_>],
) -> Result<(), AllocError>
    ensures { OnOk result (labels.new ≡ spec.all_labels (context_of around.now) (acts_of acts.now) labels.old) }
{
    'acts: for act in acts {
        note_act(alloc, around, labels, *act)?;
    }
    Ok(())
}

// A label that stands behind no other of its name.
fn define_first(
    around: &Around<'_>,
    standing: &mut Standing,
    name: Name,
    at: u32,
) -> Result<(), AllocError>
    requires name { name ≡ spelling_of (context_of around.now).tokens at }
    ensures { OnOk result (standing.new ≡ spec.defined_first (context_of around.now) at standing.old) }
{
    let entity = label(around, &name, at)?;
    let Ok(()) = mark(
        around,
        &mut standing.made,
        at,
        &entity.anchor,
        Role::Defines,
    ) else {
        drop(entity);
        return Err(AllocError);
    };
    standing.made.entities.push(entity)?;
    bind(around, &mut standing.labels, name, at)
}

fn define(
    around: &Around<'_>,
    standing: &mut Standing,
    name: Name,
    at: u32,
    before: &Option<Entity>,
) -> Result<(), AllocError>
    requires name { name ≡ spelling_of (context_of around.now).tokens at }
    ensures { OnOk result (standing.new ≡ spec.defined (context_of around.now) at before.now standing.old) }
{
    match before {
        Some(entity) => mark(
            around,
            &mut standing.made,
            at,
            &entity.anchor,
            Role::Defines,
        ),
        None => define_first(around, standing, name, at),
    }
}

/// A label (6.8.1): the second of its name denotes the first.
pub(crate) fn label_act(
    alloc: Global,
    around: &Around<'_>,
    standing: &mut Standing,
    at: u32,
) -> Result<(), AllocError>
    ensures { OnOk result (standing.new ≡ spec.labelled (context_of around.now) at standing.old) }
{
    let name = name_at(alloc, around.tokens, at)?;
    let fault = check_label(alloc, at, &name, &standing.labels)?;
    let before = share(
        alloc,
        standing.labels.find_here(&Space::Labels, name.as_str()),
    )?;
    let Ok(()) = tell(standing, fault) else {
        drop(before);
        return Err(AllocError);
    };
    let done = define(around, standing, name, at, &before);
    drop(before);
    done
}

fn use_label(
    around: &Around<'_>,
    standing: &mut Standing,
    at: u32,
    label: Option<&Entity>,
) -> Result<(), AllocError>
    ensures { OnOk result (standing.new ≡ spec.used (context_of around.now) at (option_map (λ e. e.now) label.entry) standing.old) }
{
    match label {
        Some(entity) => mark(around, &mut standing.made, at, &entity.anchor, Role::Uses),
        None => Ok(()),
    }
}

/// A `goto` (6.8.6.1): `all` has all labels of the body.
pub(crate) fn goto_act(
    alloc: Global,
    around: &Around<'_>,
    all: &Scopes,
    standing: &mut Standing,
    at: u32,
) -> Result<(), AllocError>
    ensures { OnOk result (standing.new ≡ spec.jumped (context_of around.now) all.now at standing.old) }
{
    let name = name_at(alloc, around.tokens, at)?;
    let fault = check_goto(alloc, at, &name, all)?;
    tell(standing, fault)?;
    use_label(
        around,
        standing,
        at,
        all.find_here(&Space::Labels, name.as_str()),
    )
}
