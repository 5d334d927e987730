// Names of types and parameters (ISO C11 6.7.6, 6.7.7).
ghost use Rattle.std.specs.Prelude.{◌≡◌, false, [], ◌∷◌, IfOk, OnOk};
ghost use Rattle.elab_core.specs.Ends as ends;
ghost use Rattle.elab_core.specs.Ends.{first_of};
ghost use Rattle.elab_core.specs.Entries as entries;
ghost use Rattle.elab_core.specs.Expressions as spec;
ghost use Rattle.elab_state.specs.Comes.{Comes};
ghost use Rattle.elab_state.specs.Doings.{follow, gives};
ghost use Rattle.elab_state.specs.Seen.{context_of, told_of};
ghost use Rattle.tree_data.specs.Seen as seen;
ghost use Rattle.tree_data.specs.Seen.{tree_of};
ghost use Rattle.tree_data.specs.Trees as trees;
ghost use Rattle.tree_data.specs.Seen.{type_of};
ghost use Rattle.elab_core.specs.Prototypes.{nearest as nearest_of};
ghost use Rattle.elab_core.specs.Specifiers.{nothing};
ghost use Rattle.elab_core.specs.Steps.{is_some_of, moved};

use crate::bodies::{aligned, aligned_as, enumeration, structure};
use crate::ends::{first_of, name_of, place_of, specs_begin};
use crate::entering::enter;
use crate::expressions::judged;
use crate::listed::add_mention;
use crate::parameters::{function_step, quals_of};
use crate::prototypes::{in_list, leave_list, nearest};
use crate::shapes::{Gathered, Step, Typed};
use crate::specifiers::{add_other, add_word, nothing, settled};
use crate::steps::{array_step, derived, leave_variable, pointer_step, qualifiers, sized};
use crate::tags::{tag, typedef_name};
use elab_state::{Around, Halt, Made, Where, leave_out, spelling, word_of};
use init_rules::Stack;
use scope_tables::ScopeKind;
use std::alloc::{AllocError, Global};
use tree_data::{
    Bound, Declarator, Deriving, Expr, Group, Parameters, Pointer, Specifier, Specs, TypeName,
};
use type_data::{Extent, ParamList, Params, Proto};

#[cycle(judging)]
fn atomic(
    alloc: Global,
    around: &Around<'_>,
    place: Where,
    made: &mut Made,
    gathered: &mut Gathered,
    keyword: u32,
    name: &TypeName,
) -> Result<(), Halt>
    ensures { Comes (told_of around.now) (spec.specifier (context_of around.now) place (trees.Atomic_of keyword 0 (type_of name.now) 0) gathered.old made.old) (λ _. gathered.new) result made.new }
{
    let Ok(()) = leave_out(alloc, made, "_Atomic", keyword) else {
        return Err(Halt::NoMemory);
    };
    match type_name(alloc, around, place, made, name) {
        Ok(_) => (),
        Err(halt) => return Err(halt),
    }
    gathered.faulty = true;
    Ok(())
}

#[cycle(judging)]
fn specifier(
    alloc: Global,
    around: &Around<'_>,
    place: Where,
    made: &mut Made,
    gathered: &mut Gathered,
    specifier: &Specifier,
) -> Result<(), Halt>
    ensures { Comes (told_of around.now) (spec.specifier (context_of around.now) place (seen.specifier_of specifier.now) gathered.old made.old) (λ _. gathered.new) result made.new }
{
    match specifier {
        Specifier::Word(at) => {
            let word = word_of(spelling(around.tokens, *at));
            let Ok(()) = add_word(alloc, gathered, made, word, *at) else {
                return Err(Halt::NoMemory);
            };
            Ok(())
        }
        Specifier::TypedefName(at) => {
            let other = match typedef_name(alloc, around, made, place.counted, *at) {
                Ok(done) => done,
                Err(halt) => return Err(halt),
            };
            add_other(gathered, other);
            Ok(())
        }
        Specifier::Tag(keyword, at) => {
            let other = match tag(alloc, around, made, *keyword, *at) {
                Ok(done) => done,
                Err(halt) => return Err(halt),
            };
            add_mention(around, gathered, *keyword, other);
            Ok(())
        }
        Specifier::Atomic(keyword, _, name, _) => {
            atomic(alloc, around, place, made, gathered, *keyword, name)
        }
        Specifier::AlignedAs(keyword, _, name, _) => {
            aligned_as(alloc, around, place, made, gathered, *keyword, name)
        }
        Specifier::Aligned(keyword, _, size, _) => {
            aligned(alloc, around, place, made, gathered, *keyword, size)
        }
        Specifier::Members(keyword, tag, _, list, _) => {
            structure(alloc, around, place, made, gathered, *keyword, *tag, list)
        }
        Specifier::Enumerators(list) => enumeration(alloc, around, place, made, gathered, list),
    }
}

#[cycle(judging)]
fn specified(
    alloc: Global,
    around: &Around<'_>,
    place: Where,
    made: &mut Made,
    list: &Vec<Specifier>,
) -> Result<Gathered, Halt>
    ensures { Comes (told_of around.now) (spec.specifiers (context_of around.now) place (trees.specifyings (seen.specifiers_of list.now.items) trees.No_specifiers) nothing made.old) (λ x. x) result made.new }
{
    let mut gathered = nothing();
    'specifiers: for next in list {
        match specifier(alloc, around, place, made, &mut gathered, next) {
            Ok(()) => (),
            Err(halt) => {
                drop(gathered);
                return Err(halt);
            }
        }
    }
    Ok(gathered)
}

/// What specifiers state.
#[cycle(judging)]
pub(crate) fn specifiers(
    alloc: Global,
    around: &Around<'_>,
    place: Where,
    made: &mut Made,
    specs: &Specs,
) -> Result<Gathered, Halt>
    ensures { Comes (told_of around.now) (spec.specifiers (context_of around.now) place (seen.specs_of specs.now) nothing made.old) (λ x. x) result made.new }
{
    specified(alloc, around, place, made, &specs.specifiers)
}

// The steps of pointers behind those that stand further out: the last pointer is the outermost of them.
fn add_pointers(
    alloc: Global,
    around: &Around<'_>,
    made: &mut Made,
    pointers: &[Pointer],
) -> Result<Stack<Step>, AllocError>
    ensures { IfOk result (λ steps. (steps, made.new) ≡ spec.pointer_steps (context_of around.now) (seen.pointers_of pointers.now) [] made.old) }
{
    let mut steps = Stack::new(alloc);
    let mut rest = pointers;
    'pointers: while let Some((pointer, others)) = rest.split_first() {
        let Ok(gathered) = qualifiers(alloc, around, made, pointer.qualifiers.as_slice()) else {
            drop(steps);
            return Err(AllocError);
        };
        let step = pointer_step(&gathered);
        drop(gathered);
        let Ok(()) = steps.push(step) else {
            drop(steps);
            return Err(AllocError);
        };
        rest = others;
    }
    Ok(steps)
}

fn move_back(steps: &mut Stack<Step>, inner: Stack<Step>) -> Result<(), AllocError>
    ensures { OnOk result (steps.new ≡ moved inner steps.old) }
{
    let mut left = inner;
    'inner: while let Some(step) = left.pop() {
        steps.push(step)?;
    }
    Ok(())
}

fn are_some(words: &[u32]) -> bool
    ensures { result ≡ is_some_of words.now }
{
    let Some(_) = words.first() else {
        return false;
    };
    true
}

// What brackets derive that state a size.
#[cycle(judging)]
fn sized_array(
    alloc: Global,
    around: &Around<'_>,
    place: Where,
    made: &mut Made,
    opening: u32,
    words: &Vec<u32>,
    marked: bool,
    size: &Expr,
) -> Result<Step, Halt>
    ensures { Comes (told_of around.now) (spec.sized_array (context_of around.now) opening words.now.items marked (first_of (tree_of size.now)) (spec.judge (context_of around.now) place (tree_of size.now)) made.old) (λ x. x) result made.new }
{
    let Ok(gathered) = qualifiers(alloc, around, made, words.as_slice()) else {
        return Err(Halt::NoMemory);
    };
    let size_judged = match judged(alloc, around, place, made, size) {
        Ok(done) => done,
        Err(halt) => {
            drop(gathered);
            return Err(halt);
        }
    };
    let Ok(extent) = sized(alloc, made, opening, first_of(size), &size_judged) else {
        drop(size_judged);
        drop(gathered);
        return Err(Halt::NoMemory);
    };
    drop(size_judged);
    let step = array_step(opening, &gathered, marked, extent);
    drop(gathered);
    Ok(step)
}

#[cycle(judging)]
fn bound(
    alloc: Global,
    around: &Around<'_>,
    place: Where,
    made: &mut Made,
    opening: u32,
    bound: &Bound,
) -> Result<Step, Halt>
    ensures { Comes (told_of around.now) (spec.bound (context_of around.now) place opening (seen.bound_of bound.now) made.old) (λ x. x) result made.new }
{
    match bound {
        Bound::Unsized(words) => {
            let Ok(gathered) = qualifiers(alloc, around, made, words.as_slice()) else {
                return Err(Halt::NoMemory);
            };
            let step = array_step(
                opening,
                &gathered,
                are_some(words.as_slice()),
                Some(Extent::None),
            );
            drop(gathered);
            Ok(step)
        }
        Bound::AnySize(_, _) => {
            let Ok(()) = leave_variable(alloc, made, opening) else {
                return Err(Halt::NoMemory);
            };
            Ok(Step::Bad)
        }
        Bound::Sized(words, size) => {
            sized_array(
                alloc,
                around,
                place,
                made,
                opening,
                words,
                are_some(words.as_slice()),
                size,
            )
        }
        Bound::StaticSized(_, words, size) => {
            sized_array(alloc, around, place, made, opening, words, true, size)
        }
        Bound::SizedStatic(words, _, size) => {
            sized_array(alloc, around, place, made, opening, words, true, size)
        }
    }
}

// A parameter: its type, where it has no fault.
#[cycle(judging)]
fn entry(
    alloc: Global,
    around: &Around<'_>,
    place: Where,
    made: &mut Made,
    name: &TypeName,
    alone: bool,
) -> Result<Option<Typed>, Halt>
    ensures { Comes (told_of around.now) (spec.entry (context_of around.now) place (type_of name.now) alone made.old) (λ t. t) result made.new }
{
    let within = in_list(place);
    let gathered = match specifiers(alloc, around, within, made, &name.specs) {
        Ok(done) => done,
        Err(halt) => return Err(halt),
    };
    let Ok(base) = settled(alloc, made, specs_begin(&name.specs), &gathered) else {
        drop(gathered);
        return Err(Halt::NoMemory);
    };
    let steps = match declarator(alloc, around, within, made, &name.declarator) {
        Ok(done) => done,
        Err(halt) => {
            drop(base);
            drop(gathered);
            return Err(halt);
        }
    };
    let at = place_of(&name.specs, &name.declarator);
    let own = name_of(&name.declarator);
    let quals = quals_of(&steps);
    let typed = match derived(alloc, around, made, at, true, steps, base) {
        Ok(done) => done,
        Err(halt) => {
            drop(gathered);
            return Err(halt);
        }
    };
    let body = place.defining;
    let done = enter(
        alloc, around, made, body, &gathered, alone, at, own, quals, typed,
    );
    drop(gathered);
    done
}

fn one(alloc: Global, typed: Option<Typed>) -> Result<Stack<Option<Typed>>, AllocError>
    ensures { IfOk result (λ types. types ≡ typed ∷ []) }
{
    let mut types = Stack::new(alloc);
    types.push(typed)?;
    Ok(types)
}

#[cycle(judging)]
fn first_entry(
    alloc: Global,
    around: &Around<'_>,
    place: Where,
    made: &mut Made,
    name: &TypeName,
    alone: bool,
) -> Result<Stack<Option<Typed>>, Halt>
    ensures { Comes (told_of around.now) (follow (spec.entry (context_of around.now) place (type_of name.now) alone made.old) (λ t. gives (t ∷ []))) (λ types. types) result made.new }
{
    let typed = match entry(alloc, around, place, made, name, alone) {
        Ok(done) => done,
        Err(halt) => return Err(halt),
    };
    let Ok(types) = one(alloc, typed) else {
        return Err(Halt::NoMemory);
    };
    Ok(types)
}

// The type of one parameter more, on those in front of it.
#[cycle(judging)]
fn add_entry(
    alloc: Global,
    around: &Around<'_>,
    place: Where,
    made: &mut Made,
    types: &mut Stack<Option<Typed>>,
    name: &TypeName,
) -> Result<(), Halt>
    ensures { Comes (told_of around.now) (follow (spec.entry (context_of around.now) place (type_of name.now) false made.old) (λ t. gives (t ∷ types.old))) (λ _. types.new) result made.new }
{
    let typed = match entry(alloc, around, place, made, name, false) {
        Ok(done) => done,
        Err(halt) => return Err(halt),
    };
    let Ok(()) = types.push(typed) else {
        return Err(Halt::NoMemory);
    };
    Ok(())
}

#[cycle(judging)]
fn add_entries(
    alloc: Global,
    around: &Around<'_>,
    place: Where,
    made: &mut Made,
    types: &mut Stack<Option<Typed>>,
    more: &Vec<(u32, TypeName)>,
) -> Result<(), Halt>
    ensures { Comes (told_of around.now) (entries.stacked (context_of around.now) place (trees.row (seen.parameter_row_of more.now.items) trees.No_more) types.old made.old) (λ _. types.new) result made.new }
{
    'entries: for pair in more {
        match add_entry(alloc, around, place, made, types, &pair.1) {
            Ok(()) => (),
            Err(halt) => return Err(halt),
        }
    }
    Ok(())
}

fn is_alone(more: &[(u32, TypeName)]) -> bool
    ensures { result ≡ ends.is_alone (trees.row (seen.parameter_row_of more.now) trees.No_more) }
{
    let Some(_) = more.first() else {
        return true;
    };
    false
}

#[cycle(judging)]
fn parameters(
    alloc: Global,
    around: &Around<'_>,
    place: Where,
    made: &mut Made,
    list: &Parameters,
) -> Result<Step, Halt>
    ensures { Comes (told_of around.now) (spec.parameters (context_of around.now) place (seen.parameters_of list.now) made.old) (λ s. s) result made.new }
{
    match list {
        Parameters::Names(first, _) => {
            let Ok(()) = leave_out(alloc, made, "identifier list", *first) else {
                return Err(Halt::NoMemory);
            };
            Ok(Step::Bad)
        }
        Parameters::NoParameters => Ok(Step::Function(Params::of(ParamList::Empty), Proto::Old)),
        Parameters::Fixed(first, more) => {
            let mut types = match first_entry(
                alloc,
                around,
                place,
                made,
                first,
                is_alone(more.as_slice()),
            ) {
                Ok(done) => done,
                Err(halt) => return Err(halt),
            };
            match add_entries(alloc, around, place, made, &mut types, more) {
                Ok(()) => (),
                Err(halt) => return Err(halt),
            }
            let Ok(step) = function_step(alloc, Proto::Fixed, types) else {
                return Err(Halt::NoMemory);
            };
            Ok(step)
        }
        Parameters::Variadic(first, more, _, _) => {
            let mut types = match first_entry(alloc, around, place, made, first, false) {
                Ok(done) => done,
                Err(halt) => return Err(halt),
            };
            match add_entries(alloc, around, place, made, &mut types, more) {
                Ok(()) => (),
                Err(halt) => return Err(halt),
            }
            let Ok(step) = function_step(alloc, Proto::Variadic, types) else {
                return Err(Halt::NoMemory);
            };
            Ok(step)
        }
    }
}

#[cycle(judging)]
fn prototype(
    alloc: Global,
    around: &Around<'_>,
    place: Where,
    made: &mut Made,
    list: &Parameters,
) -> Result<Step, Halt>
    ensures { Comes (told_of around.now) (spec.derivation (context_of around.now) place (trees.Function_of 0 (seen.parameters_of list.now) 0) made.old) (λ x. x) result made.new }
{
    let before = made.entities.as_slice().len();
    let Ok(()) = made.names.enter(ScopeKind::Prototype) else {
        return Err(Halt::NoMemory);
    };
    let step = match parameters(alloc, around, place, made, list) {
        Ok(done) => done,
        Err(halt) => return Err(halt),
    };
    let Ok(()) = leave_list(alloc, made, place, before) else {
        return Err(Halt::NoMemory);
    };
    Ok(step)
}

#[cycle(judging)]
fn derivation(
    alloc: Global,
    around: &Around<'_>,
    place: Where,
    made: &mut Made,
    next: &Deriving,
) -> Result<Step, Halt>
    ensures { Comes (told_of around.now) (spec.derivation (context_of around.now) place (seen.deriving_of next.now) made.old) (λ x. x) result made.new }
{
    match next {
        Deriving::Array(opening, inner, _) => {
            bound(alloc, around, in_list(place), made, *opening, inner)
        }
        Deriving::Function(_, list, _) => prototype(alloc, around, place, made, list),
    }
}

#[cycle(judging)]
fn add_deriving(
    alloc: Global,
    around: &Around<'_>,
    place: Where,
    made: &mut Made,
    steps: &mut Stack<Step>,
    next: &Deriving,
) -> Result<(), Halt>
    ensures { Comes (told_of around.now) (follow (spec.derivation (context_of around.now) (nearest_of place steps.old) (seen.deriving_of next.now) made.old) (λ s. gives (s ∷ steps.old))) (λ _. steps.new) result made.new }
{
    let within = nearest(place, steps);
    let step = match derivation(alloc, around, within, made, next) {
        Ok(done) => done,
        Err(halt) => return Err(halt),
    };
    let Ok(()) = steps.push(step) else {
        return Err(Halt::NoMemory);
    };
    Ok(())
}

#[cycle(judging)]
fn derivings(
    alloc: Global,
    around: &Around<'_>,
    place: Where,
    made: &mut Made,
    steps: &mut Stack<Step>,
    list: &Vec<Deriving>,
) -> Result<(), Halt>
    ensures { Comes (told_of around.now) (spec.derivings (context_of around.now) place (trees.derivings (seen.derivings_of list.now.items) trees.No_derivings) steps.old made.old) (λ _. steps.new) result made.new }
{
    'derivings: for next in list {
        match add_deriving(alloc, around, place, made, steps, next) {
            Ok(()) => (),
            Err(halt) => return Err(halt),
        }
    }
    Ok(())
}

#[cycle(judging)]
fn group(
    alloc: Global,
    around: &Around<'_>,
    place: Where,
    made: &mut Made,
    group: &Group,
) -> Result<Stack<Step>, Halt>
    ensures { Comes (told_of around.now) (spec.grouping (context_of around.now) place (seen.group_of group.now) made.old) (λ x. x) result made.new }
{
    match group {
        Group::NoGroup => Ok(Stack::new(alloc)),
        Group::Named(_) => Ok(Stack::new(alloc)),
        Group::Grouped(_, inner, _) => declarator(alloc, around, place, made, inner),
    }
}

/// What a declarator derives, the outermost step first.
#[cycle(judging)]
pub(crate) fn declarator(
    alloc: Global,
    around: &Around<'_>,
    place: Where,
    made: &mut Made,
    declarator: &Declarator,
) -> Result<Stack<Step>, Halt>
    ensures { Comes (told_of around.now) (spec.declarator (context_of around.now) place (seen.declarator_of declarator.now) made.old) (λ x. x) result made.new }
{
    let Ok(pointers) = add_pointers(alloc, around, made, declarator.pointers.as_slice()) else {
        return Err(Halt::NoMemory);
    };
    let mut steps = match group(alloc, around, place, made, &declarator.group) {
        Ok(done) => done,
        Err(halt) => return Err(halt),
    };
    match derivings(
        alloc,
        around,
        place,
        made,
        &mut steps,
        &declarator.derivings,
    ) {
        Ok(()) => (),
        Err(halt) => return Err(halt),
    }
    let Ok(()) = move_back(&mut steps, pointers) else {
        return Err(Halt::NoMemory);
    };
    Ok(steps)
}

/// The type that a name of a type means.
#[cycle(judging)]
pub(crate) fn type_name(
    alloc: Global,
    around: &Around<'_>,
    place: Where,
    made: &mut Made,
    name: &TypeName,
) -> Result<Typed, Halt>
    ensures { Comes (told_of around.now) (spec.type_name (context_of around.now) place (type_of name.now) made.old) (λ x. x) result made.new }
{
    let gathered = match specifiers(alloc, around, place, made, &name.specs) {
        Ok(done) => done,
        Err(halt) => return Err(halt),
    };
    let Ok(base) = settled(alloc, made, specs_begin(&name.specs), &gathered) else {
        drop(gathered);
        return Err(Halt::NoMemory);
    };
    drop(gathered);
    let steps = match declarator(alloc, around, place, made, &name.declarator) {
        Ok(done) => done,
        Err(halt) => {
            drop(base);
            return Err(halt);
        }
    };
    let at = place_of(&name.specs, &name.declarator);
    derived(alloc, around, made, at, false, steps, base)
}
