// What stands in front of an operand: unary operators and casts, and the front of an operand that begins with the name of
// a type. `( type-name )` is read once; the token behind it tells what it is.
ghost use Rattle.std.specs.Prelude.{◌≡◌, ℕ, ◌+◌, ◌<◌, ◌≤◌, length, true, IfOk, IfErr};
ghost use Rattle.tree_data.specs.Seen.{prefixes_of, type_of};
ghost use Rattle.tree_data.specs.Trees.{Naming, Tree, Fronts, None_before, fronts};
ghost use Rattle.c_parser.specs.declared.kinds.Kind.TheVariants.{OpenParen, CloseParen};
ghost use Rattle.c_parser.specs.Beginnings.{start_of, Begins, Fronted, IsNamed, NoOperand};
ghost use Rattle.c_parser.specs.Kinds as spec;
ghost use Rattle.c_parser.specs.Reading.{Reads, HoldsType, HoldFronts, Stops, FoundPrefixes, MustGive};

use crate::answers::Stop;
use crate::kinds::{Kind, casts_at, kind_at, size_at, type_at};
use crate::room::push;
use crate::scope::Kinds;
use crate::type_names::type_name;
use std::alloc::Global;
use tree_data::{Prefix, TypeName};

// What was read of an operand: nothing, and where it begins; the size or alignment of a type; or a type name in parentheses
// in front of a `{`.
#[derive(Drop)]
pub(crate) enum Begun {
    Plain(u32),
    Size(u32, TypeName, u32),
    Literal(u32, TypeName, u32),
}

// What stands in front of an operand and the place behind it, or what was read of the operand.
#[derive(Drop)]
pub(crate) enum Front {
    Before(Prefix, u32),
    Behind(Begun),
    // `sizeof` in front of a compound literal, and the name of its type.
    SizeOfLiteral(u32, TypeName, u32),
}

// `( type-name )`, and the place of the `)`.
#[cycle(parser)]
pub(crate) fn typed(alloc: Global, kinds: &Kinds<'_>, at: u32) -> Result<(TypeName, u32), Stop>
    requires size { length kinds.now ≤ 2000000 }
    requires inside { at < length kinds.now }
    requires kind { spec.kind_at kinds.now at ≡ OpenParen }
    ensures found { IfOk result (λ r. IsNamed kinds.now at (type_of r.0) r.1) }
    ensures only { (t : Naming) → (end : ℕ) → HoldsType kinds.now t (at + 1) end → spec.kind_at kinds.now end ≡ CloseParen
        → MustGive result (λ r. (type_of r.0 ≡ t) × (r.1 ≡ end)) }
{
    let (name, closing) = match type_name(alloc, kinds, at + 1) {
        Ok(found) => found,
        Err(stop) => return Err(stop),
    };
    let Kind::CloseParen = kind_at(kinds, closing) else {
        drop(name);
        return Err(Stop::Syntax(closing));
    };
    Ok((name, closing))
}

// `sizeof` or `_Alignof` in front of a type name in parentheses.
#[cycle(parser)]
fn size(alloc: Global, kinds: &Kinds<'_>, at: u32) -> Result<Front, Stop>
    requires size { length kinds.now ≤ 2000000 }
    requires inside { at ≤ length kinds.now }
    requires kind { spec.size_at kinds.now at ≡ true }
    ensures found { IfOk result (λ r. Fronted kinds.now at r) }
    ensures none { IfErr result (λ e. NoOperand kinds.now at e) }
{
    let (name, closing) = match typed(alloc, kinds, at + 1) {
        Ok(found) => found,
        Err(stop) => return Err(stop),
    };
    let Kind::OpenBrace = kind_at(kinds, closing + 1) else {
        return Ok(Front::Behind(Begun::Size(at, name, closing)));
    };
    let Kind::SizeOf = kind_at(kinds, at) else {
        drop(name);
        return Err(Stop::Syntax(closing + 1));
    };
    Ok(Front::SizeOfLiteral(at, name, closing))
}

// A type name in parentheses: a cast, but in front of a `{`.
#[cycle(parser)]
fn cast(alloc: Global, kinds: &Kinds<'_>, at: u32) -> Result<Front, Stop>
    requires size { length kinds.now ≤ 2000000 }
    requires inside { at ≤ length kinds.now }
    requires kind { spec.type_at kinds.now at ≡ true }
    ensures found { IfOk result (λ r. Fronted kinds.now at r) }
    ensures none { IfErr result (λ e. NoOperand kinds.now at e) }
{
    let (name, closing) = match typed(alloc, kinds, at) {
        Ok(found) => found,
        Err(stop) => return Err(stop),
    };
    if let Kind::OpenBrace = kind_at(kinds, closing + 1) {
        return Ok(Front::Behind(Begun::Literal(at, name, closing)));
    }
    if !casts_at(kinds, at) {
        drop(name);
        return Err(Stop::Syntax(at));
    }
    match Prefix::cast(alloc, at, name, closing) {
        Ok(cast) => Ok(Front::Before(cast, closing + 1)),
        Err(_) => Err(Stop::NoMemory),
    }
}

// What stands in front of an operand.
#[cycle(parser)]
fn in_front(alloc: Global, kinds: &Kinds<'_>, at: u32) -> Result<Front, Stop>
    requires size { length kinds.now ≤ 2000000 }
    requires inside { at ≤ length kinds.now }
    ensures found { IfOk result (λ r. Fronted kinds.now at r) }
    ensures none { IfErr result (λ e. NoOperand kinds.now at e) }
{
    if size_at(kinds, at) {
        return size(alloc, kinds, at);
    }
    if kind_at(kinds, at).is_prefix() {
        return Ok(Front::Before(Prefix::operator(at), at + 1));
    }
    if type_at(kinds, at) {
        return cast(alloc, kinds, at);
    }
    Ok(Front::Behind(Begun::Plain(at)))
}

// The unary operators and casts that stand here, and what was read behind them.
#[cycle(parser)]
pub(crate) fn prefixes(
    alloc: Global,
    kinds: &Kinds<'_>,
    at: u32,
) -> Result<(Vec<Prefix>, Begun), Stop>
    requires size { length kinds.now ≤ 2000000 }
    requires inside { at ≤ length kinds.now }
    ensures found { IfOk result (λ r. FoundPrefixes kinds.now at (fronts (prefixes_of r.0.items) None_before) (start_of r.1)) }
    ensures begins { IfOk result (λ r. Begins kinds.now r.1) }
    ensures only { (xs : Fronts) → (m : ℕ) → (t : Tree) → (end : ℕ) → HoldFronts kinds.now 15 xs at m
        → Reads kinds.now 16 t m end → Stops kinds.now 15 end
        → MustGive result (λ r. (fronts (prefixes_of r.0.items) None_before ≡ xs) × (start_of r.1 ≡ m)) }
{
    let mut prefixes = Vec::new(alloc);
    let mut end = at;
    'prefixes: loop {
        let (one, next) = match in_front(alloc, kinds, end) {
            Ok(Front::Before(one, next)) => (one, next),
            Ok(Front::Behind(begun)) => return Ok((prefixes, begun)),
            Ok(Front::SizeOfLiteral(_, name, closing)) => {
                let Ok(()) = push(&mut prefixes, Prefix::operator(end)) else {
                    return Err(Stop::NoMemory);
                };
                return Ok((prefixes, Begun::Literal(end + 1, name, closing)));
            }
            Err(stop) => return Err(stop),
        };
        let Ok(()) = push(&mut prefixes, one) else {
            return Err(Stop::NoMemory);
        };
        end = next;
    }
}
