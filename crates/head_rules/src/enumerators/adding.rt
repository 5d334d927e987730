// One enumerator more.
ghost use Rattle.std.specs.Prelude.{◌≡◌, IfOk, option_map};
ghost use Rattle.head_rules.specs.Enumerators as spec;

use super::Enumerators;
use crate::faults::of_name;
use crate::naming::{Constant, NameToken};
use crate::outcomes::Enumerated;
use scope_tables::{Anchor, Entity, EntityKind, Life, Linkage, Scopes};
use shared_list::Listing;
use std::alloc::{AllocError, Global};
use type_data::{Basic, CType, Fault, Member, Node, Space, Value};
use type_rel::UNQUALIFIED;

#[tactic(auto, unfolding(crate::specs::Enumerators::is_int))]
fn is_int(number: i128) -> bool
    ensures { result ≡ spec.is_int number }
{
    -2_147_483_648 <= number && number <= 2_147_483_647
}

fn is_held(value: Value) -> bool
    ensures { result ≡ spec.is_held value }
{
    match value {
        Value::Known(number) => is_int(number),
        Value::Unknown => true,
        Value::Faulty(_) => true,
    }
}

#[tactic(auto, unfolding(crate::specs::Enumerators::is_int))]
fn after(value: Value) -> Value
    ensures { result ≡ spec.after value }
{
    match value {
        Value::Known(number) => {
            if -2_147_483_648 <= number && number <= 2_147_483_647 {
                return Value::Known(number + 1);
            }
            Value::Unknown
        }
        Value::Unknown => Value::Unknown,
        Value::Faulty(_) => Value::Unknown,
    }
}

fn stated(value: Constant, next: Value) -> Option<Value>
    ensures { result ≡ spec.stated value next }
{
    match value {
        Constant::Absent => Some(next),
        Constant::Is(value) => Some(value),
        Constant::Faulty => None,
    }
}

fn held(value: Value) -> Value
    ensures { result ≡ spec.held value }
{
    if is_held(value) {
        value
    } else {
        Value::Unknown
    }
}

fn value_of(before: Option<&Entity>, value: Option<Value>) -> Value
    ensures { result ≡ spec.value_of (option_map (λ e. e.now) before.entry) value }
{
    match before {
        Some(_) => Value::Unknown,
        None => match value {
            Some(value) => held(value),
            None => Value::Unknown,
        },
    }
}

fn unheld(alloc: Global, name: &NameToken, value: Value) -> Result<Option<Fault>, AllocError>
    ensures { IfOk result (λ f. f ≡ spec.unheld name.now value) }
{
    if is_held(value) {
        return Ok(None);
    }
    let fault = of_name(alloc, 411, name.id.at, &name.name)?;
    Ok(Some(fault))
}

fn fault_of(
    alloc: Global,
    name: &NameToken,
    before: Option<&Entity>,
    value: Option<Value>,
) -> Result<Option<Fault>, AllocError>
    ensures { IfOk result (λ f. f ≡ spec.fault_of name.now (option_map (λ e. e.now) before.entry) value) }
{
    let Some(value) = value else {
        return Ok(None);
    };
    match before {
        Some(_) => {
            let fault = of_name(alloc, 402, name.id.at, &name.name)?;
            Ok(Some(fault))
        }
        None => unheld(alloc, name, value),
    }
}

fn entity(name: &NameToken, value: Value) -> Result<Entity, AllocError>
    ensures { IfOk result (λ e. e ≡ spec.entity name.now value) }
{
    let tok = name.tok.copy()?;
    let name = name.name.share()?;
    Ok(Entity {
        name,
        kind: EntityKind::Enumerator,
        ty: CType::of(Node::Basic(Basic::Int)),
        qual: UNQUALIFIED,
        linkage: Linkage::None,
        life: Life::Without,
        value: Some(value),
        anchor: Anchor::Local(tok),
    })
}

fn entity_of(
    name: &NameToken,
    before: Option<&Entity>,
    value: Value,
) -> Result<Option<Entity>, AllocError>
    ensures { IfOk result (λ e. e ≡ spec.entity_of name.now (option_map (λ e. e.now) before.entry) value) }
{
    match before {
        Some(_) => Ok(None),
        None => {
            let entity = entity(name, value)?;
            Ok(Some(entity))
        }
    }
}

fn member(name: &NameToken, value: Value) -> Result<Member, AllocError>
    ensures { IfOk result (λ m. m ≡ spec.member name.now value) }
{
    let id = name.id.share()?;
    let name = name.name.share()?;
    Ok(Member {
        name: Some(name),
        ty: CType::of(Node::Basic(Basic::Int)),
        qual: UNQUALIFIED,
        width: None,
        align: None,
        value: Some(value),
        at: Some(id),
    })
}

impl Enumerators {
    /// None yet, the first of which is 0.
    pub fn new(alloc: Global) -> Enumerators
        ensures { result ≡ spec.none_listed }
    {
        Enumerators {
            value: Value::Known(0),
            list: Vec::new(alloc),
        }
    }

    /// One more, whose name stands in the innermost of the scopes: its value is what its expression comes to, else one more than that
    /// of the last (ISO C11 6.7.2.2p3).
    ///
    /// Its fault is 402 where that scope has the name (6.7p3), else 411 where no `int` holds the value (p2). Of what is refused, or has a
    /// faulty expression, the value isn't told, nor that of those that follow it.
    pub fn add(
        &mut self,
        alloc: Global,
        scopes: &Scopes,
        name: &NameToken,
        value: Constant,
    ) -> Result<Enumerated, AllocError>
        ensures { IfOk result (λ r. (r, self.new) ≡ spec.enumerator scopes.now name.now value self.old) }
    {
        let before = scopes.find_here(&Space::Ordinary, name.name.as_str());
        let stated = stated(value, self.value);
        let value = value_of(before, stated);
        let fault = fault_of(alloc, name, before, stated)?;
        let member = member(name, value)?;
        self.list.push(member)?;
        let entity = entity_of(name, before, value)?;
        self.value = after(value);
        Ok(Enumerated { entity, fault })
    }

    /// The members of the enumeration. It takes no memory.
    pub fn into_members(self) -> Listing<Member>
        ensures { result ≡ self.members }
    {
        Listing::from_vec(self.list)
    }
}
