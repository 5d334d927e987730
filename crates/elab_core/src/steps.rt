// What a declarator derives from the type of its specifiers (ISO C11 6.7.6), one step after another, from the base outward.
ghost use Rattle.std.specs.Prelude.{◌≡◌, ◌<ℤ◌, pos, unsigned_abs, IfOk, OnOk, option_map};
ghost use Rattle.elab_core.specs.Steps as spec;
ghost use Rattle.elab_state.specs.Comes.{Comes, Leads};
ghost use Rattle.elab_state.specs.Seen.{context_of, told_of};
ghost use Rattle.expr_rules.specs.Kinds;

use crate::flexible::is_flexible;
use crate::shapes::{Gathered, Step, Typed};
use crate::specifiers::{add_word, is_function, no_type, note_type, nothing};
use elab_state::{Around, Halt, Made, fault_at, leave_out, look_at, look_deep, spelling, word_of};
use init_rules::Stack;
use std::alloc::{AllocError, Global};
use type_data::{
    CType, Constancy, Extent, Judged, Node, Params, Proto, Qual, TagInfo, TagKind, Tags, Value,
};
use type_rel::{UNQUALIFIED, converted, integer_type, is_bad, is_complete};

/// The qualifiers behind a `*` or in brackets, which are these tokens.
pub fn qualifiers(
    alloc: Global,
    around: &Around<'_>,
    made: &mut Made,
    words: &[u32],
) -> Result<Gathered, AllocError>
    ensures { IfOk result (λ g. (g, made.new) ≡ spec.qualifiers (context_of around.now) words.now made.old) }
{
    let mut gathered = nothing();
    let mut rest = words;
    'words: while let Some((word, others)) = rest.split_first() {
        let Ok(()) = add_word(
            alloc,
            &mut gathered,
            made,
            word_of(spelling(around.tokens, *word)),
            *word,
        ) else {
            drop(gathered);
            return Err(AllocError);
        };
        rest = others;
    }
    Ok(gathered)
}

/// What a `*` derives with the qualifiers behind it.
pub fn pointer_step(gathered: &Gathered) -> Step
    ensures { result ≡ spec.pointer_step gathered.now }
{
    if gathered.faulty {
        return Step::Bad;
    }
    Step::Pointer(gathered.qual, gathered.restrict_at)
}

/// What brackets derive: `at` is the `[`, `marked` says that qualifiers or `static` stand behind it, and there is no extent where the size
/// has a fault.
pub fn array_step(at: u32, gathered: &Gathered, marked: bool, extent: Option<Extent>) -> Step
    ensures { result ≡ spec.array_step at gathered.now marked extent }
{
    if gathered.faulty {
        return Step::Bad;
    }
    match extent {
        Some(extent) => Step::Array(at, gathered.qual, marked, extent),
        None => Step::Bad,
    }
}

/// Notes that an array has a size that is no constant.
#[tactic(auto, unfolding(crate::specs::Steps::variable))]
pub fn leave_variable(alloc: Global, made: &mut Made, at: u32) -> Result<(), AllocError>
    ensures { OnOk result (made.new ≡ spec.variable_fault at made.old) }
{
    leave_out(alloc, made, "variable length array", at)
}

fn bad_size(alloc: Global, made: &mut Made, at: u32) -> Result<Option<Extent>, AllocError>
    ensures { IfOk result (λ n. (n, made.new) ≡ spec.bad_size at made.old) }
{
    made.faults.push(fault_at(alloc, 419, at))?;
    Ok(None)
}

fn of_number(
    alloc: Global,
    made: &mut Made,
    at: u32,
    number: i128,
) -> Result<Option<Extent>, AllocError>
    ensures { IfOk result (λ n. (n, made.new) ≡ spec.of_number at number made.old) }
{
    if number <= 0 {
        return bad_size(alloc, made, at);
    }
    Ok(Some(extent_of(number)))
}

fn extent_of(number: i128) -> Extent
    requires { pos 0 <ℤ number }
    ensures { result ≡ spec.extent_of (unsigned_abs number) }
{
    if number <= 18_446_744_073_709_551_615 {
        return Extent::Size(number as u64);
    }
    Extent::Unknown
}

fn of_value(
    alloc: Global,
    made: &mut Made,
    at: u32,
    begins: u32,
    value: Value,
) -> Result<Option<Extent>, AllocError>
    ensures { IfOk result (λ n. (n, made.new) ≡ spec.of_value at begins value made.old) }
{
    match value {
        Value::Known(number) => of_number(alloc, made, at, number),
        Value::Unknown => Ok(Some(Extent::Unknown)),
        Value::Faulty(_) => {
            made.faults.push(fault_at(alloc, 531, begins))?;
            Ok(None)
        }
    }
}

fn no_constant(alloc: Global, made: &mut Made, begins: u32) -> Result<Option<Extent>, AllocError>
    ensures { IfOk result (λ n. (n, made.new) ≡ spec.no_constant begins made.old) }
{
    leave_variable(alloc, made, begins)?;
    Ok(None)
}

fn of_constancy(
    alloc: Global,
    made: &mut Made,
    at: u32,
    begins: u32,
    constant: Constancy,
) -> Result<Option<Extent>, AllocError>
    ensures { IfOk result (λ n. (n, made.new) ≡ spec.of_constancy at begins constant made.old) }
{
    match constant {
        Constancy::Int(value) => of_value(alloc, made, at, begins, value),
        Constancy::No => no_constant(alloc, made, begins),
        Constancy::Arith => no_constant(alloc, made, begins),
        Constancy::Addr => no_constant(alloc, made, begins),
        Constancy::Null => no_constant(alloc, made, begins),
    }
}

/// The size of an array (6.7.6.2p1), whose `[` is `at` and whose size begins with the token `begins`. `None` where it has a fault, which is
/// noted.
pub fn sized(
    alloc: Global,
    made: &mut Made,
    at: u32,
    begins: u32,
    size: &Judged,
) -> Result<Option<Extent>, AllocError>
    ensures { IfOk result (λ n. (n, made.new) ≡ spec.sized at begins size.now made.old) }
{
    if is_bad(&size.ty) {
        return Ok(None);
    }
    let value = converted(alloc, size)?;
    if integer_type(&value.ty).is_some() {
        let constant = value.constant;
        drop(value);
        return of_constancy(alloc, made, at, begins, constant);
    }
    drop(value);
    bad_size(alloc, made, at)
}

fn pointer_type(alloc: Global, typed: Typed, qual: Qual) -> Result<Typed, AllocError>
    ensures { IfOk result (λ t. t ≡ spec.pointer_type typed qual) }
{
    let ty = CType::pointer(alloc, typed.ty, typed.qual)?;
    Ok(Typed { ty, qual })
}

fn pointed(
    alloc: Global,
    made: &mut Made,
    at: Option<u32>,
    qual: Qual,
    typed: Typed,
) -> Result<Typed, AllocError>
    ensures { IfOk result (λ t. (t, made.new) ≡ spec.pointed at qual typed made.old) }
{
    match at {
        Some(at) => {
            if is_function(&typed.ty) {
                let pointer = pointer_type(alloc, typed, qual)?;
                note_type(alloc, made, 415, at, pointer.ty)?;
                return Ok(no_type());
            }
            pointer_type(alloc, typed, qual)
        }
        None => pointer_type(alloc, typed, qual),
    }
}

fn may_be_element(alloc: Global, tags: &Tags, ty: &CType) -> Result<bool, AllocError>
    ensures { IfOk result (λ b. b ≡ spec.may_be_element tags.now ty.now) }
{
    if is_complete(tags, ty) {
        let flexible = is_flexible(alloc, tags, ty)?;
        return Ok(!flexible);
    }
    Ok(false)
}

fn element_type(
    alloc: Global,
    made: &mut Made,
    at: u32,
    extent: Extent,
    typed: Typed,
) -> Result<Typed, AllocError>
    ensures { IfOk result (λ t. (t, made.new) ≡ spec.element_type at extent typed made.old) }
{
    let Ok(fits) = may_be_element(alloc, &made.tags, &typed.ty) else {
        drop(typed);
        return Err(AllocError);
    };
    if fits {
        let ty = CType::array(alloc, typed.ty, typed.qual, extent)?;
        return Ok(Typed {
            ty,
            qual: UNQUALIFIED,
        });
    }
    note_type(alloc, made, 418, at, typed.ty)?;
    Ok(no_type())
}

fn is_union_info(info: Option<&TagInfo>) -> bool
    ensures { result ≡ spec.is_union_info (option_map (λ i. i.now) info.entry) }
{
    match info {
        Some(info) => match info.kind {
            TagKind::Struct => false,
            TagKind::Union => true,
            TagKind::Enum => false,
        },
        None => false,
    }
}

fn is_union(tags: &Tags, ty: &CType) -> bool
    ensures { result ≡ spec.is_union tags.now ty.now }
{
    match ty.node() {
        Node::Tagged(id) => is_union_info(tags.get(id)),
        Node::Void => false,
        Node::Basic(_) => false,
        Node::Enumerated(_) => false,
        Node::Pointer(_, _) => false,
        Node::Array(_, _, _) => false,
        Node::Function(_, _, _) => false,
        Node::Bad => false,
    }
}

fn look_inside(alloc: Global, around: &Around<'_>, made: &mut Made, ty: &CType) -> Result<(), Halt>
    ensures { Leads (told_of around.now) (spec.look_inside (context_of around.now) ty.now made.old) result made.new }
{
    if is_union(&made.tags, ty) {
        return look_deep(alloc, around, made, ty);
    }
    Ok(())
}

fn look_at_element(
    alloc: Global,
    around: &Around<'_>,
    made: &mut Made,
    ty: &CType,
) -> Result<(), Halt>
    ensures { Leads (told_of around.now) (spec.look_at_element (context_of around.now) ty.now made.old) result made.new }
{
    match look_at(alloc, around, made, ty) {
        Ok(()) => (),
        Err(halt) => return Err(halt),
    }
    look_inside(alloc, around, made, ty)
}

fn arrayed(
    alloc: Global,
    around: &Around<'_>,
    made: &mut Made,
    at: u32,
    extent: Extent,
    typed: Typed,
) -> Result<Typed, Halt>
    ensures { Comes (told_of around.now) (spec.arrayed (context_of around.now) at extent typed made.old) (λ t. t) result made.new }
{
    match look_at_element(alloc, around, made, &typed.ty) {
        Ok(()) => (),
        Err(halt) => {
            drop(typed);
            return Err(halt);
        }
    }
    match element_type(alloc, made, at, extent, typed) {
        Ok(typed) => Ok(typed),
        Err(_) => Err(Halt::NoMemory),
    }
}

fn is_array(ty: &CType) -> bool
    ensures { result ≡ Kinds.is_array ty.now }
{
    match ty.node() {
        Node::Array(_, _, _) => true,
        _ => false,
    }
}

fn may_be_returned(ty: &CType) -> bool
    ensures { result ≡ spec.may_be_returned ty.now }
{
    !(is_function(ty) || is_array(ty))
}

fn returning(
    alloc: Global,
    made: &mut Made,
    at: u32,
    params: Params,
    proto: Proto,
    typed: Typed,
) -> Result<Typed, AllocError>
    ensures { IfOk result (λ t. (t, made.new) ≡ spec.returning at params proto typed made.old) }
{
    if may_be_returned(&typed.ty) {
        let ty = CType::function(alloc, typed.ty, params, proto)?;
        return Ok(Typed {
            ty,
            qual: UNQUALIFIED,
        });
    }
    note_type(alloc, made, 421, at, typed.ty)?;
    Ok(no_type())
}

fn sound_step(
    alloc: Global,
    around: &Around<'_>,
    made: &mut Made,
    at: u32,
    step: Step,
    typed: Typed,
) -> Result<Typed, Halt>
    ensures { Comes (told_of around.now) (spec.sound_step (context_of around.now) at step typed made.old) (λ t. t) result made.new }
{
    match step {
        Step::Bad => Ok(no_type()),
        Step::Pointer(qual, restrict_at) => {
            match pointed(alloc, made, restrict_at, qual, typed) {
                Ok(typed) => Ok(typed),
                Err(_) => Err(Halt::NoMemory),
            }
        }
        Step::Array(_, _, _, extent) => arrayed(alloc, around, made, at, extent, typed),
        Step::Function(params, proto) => {
            match returning(alloc, made, at, params, proto, typed) {
                Ok(typed) => Ok(typed),
                Err(_) => Err(Halt::NoMemory),
            }
        }
    }
}

fn unmarked_step(
    alloc: Global,
    around: &Around<'_>,
    made: &mut Made,
    at: u32,
    step: Step,
    typed: Typed,
) -> Result<Typed, Halt>
    ensures { Comes (told_of around.now) (spec.unmarked_step (context_of around.now) at step typed made.old) (λ t. t) result made.new }
{
    if is_bad(&typed.ty) {
        drop(typed);
        drop(step);
        return Ok(no_type());
    }
    sound_step(alloc, around, made, at, step, typed)
}

// The `[` of brackets that may not have what stands in them.
fn misplaced(step: &Step, outermost: bool) -> Option<u32>
    ensures { result ≡ spec.misplaced step.now outermost }
{
    match step {
        Step::Array(opening, _, marked, _) => {
            if *marked && !outermost {
                return Some(*opening);
            }
            None
        }
        Step::Bad => None,
        Step::Pointer(_, _) => None,
        Step::Function(_, _) => None,
    }
}

fn one_step(
    alloc: Global,
    around: &Around<'_>,
    made: &mut Made,
    at: u32,
    outermost: bool,
    step: Step,
    typed: Typed,
) -> Result<Typed, Halt>
    ensures { Comes (told_of around.now) (spec.one_step (context_of around.now) at outermost step typed made.old) (λ t. t) result made.new }
{
    match misplaced(&step, outermost) {
        Some(opening) => {
            drop(typed);
            drop(step);
            match made.faults.push(fault_at(alloc, 420, opening)) {
                Ok(()) => Ok(no_type()),
                Err(_) => Err(Halt::NoMemory),
            }
        }
        None => unmarked_step(alloc, around, made, at, step, typed),
    }
}

fn is_last(steps: &Stack<Step>) -> bool
    ensures { result ≡ spec.is_last steps.now }
{
    match steps.top() {
        Some(_) => false,
        None => true,
    }
}

/// The type that steps derive from that of specifiers, in the order in which they stand on the stack from its top. `at` is the name that is
/// declared, or the first token where there is none; `parameter` says that it is that of a parameter.
pub fn derived(
    alloc: Global,
    around: &Around<'_>,
    made: &mut Made,
    at: u32,
    parameter: bool,
    steps: Stack<Step>,
    base: Typed,
) -> Result<Typed, Halt>
    ensures { Comes (told_of around.now) (spec.derived (context_of around.now) at parameter steps base made.old) (λ t. t) result made.new }
{
    let mut left = steps;
    let mut typed = base;
    'steps: while let Some(step) = left.pop() {
        let outermost = parameter && is_last(&left);
        typed = match one_step(alloc, around, made, at, outermost, step, typed) {
            Ok(done) => done,
            Err(halt) => return Err(halt),
        };
    }
    Ok(typed)
}
