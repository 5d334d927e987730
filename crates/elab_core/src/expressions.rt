// The judgement of a whole expression (ISO C11 6.5, 6.6).
ghost use Rattle.std.specs.Prelude.{[], ◌∷◌};
ghost use Rattle.elab_core.specs.Expressions as spec;
ghost use Rattle.elab_core.specs.Casts as casts;
ghost use Rattle.elab_core.specs.Operators.{is_alignment as is_alignment_of};
ghost use Rattle.elab_core.specs.Rows as rows;
ghost use Rattle.elab_state.specs.Comes.{Comes};
ghost use Rattle.elab_state.specs.Tokens.{spelling as spelling_of};
ghost use Rattle.expr_rules.specs.declared.parts.Form.TheVariants as form;
ghost use Rattle.elab_state.specs.Seen.{context_of, told_of};
ghost use Rattle.tree_data.specs.Seen.{tree_of, type_of};
ghost use Rattle.tree_data.specs.Trees as trees;

use crate::braces::completed;
use crate::casts::size;
use crate::constants::{constant, text};
use crate::names::identifier;
use crate::naming::type_name;
use crate::operators::is_alignment;
use crate::postfix::{operands, suffixes};
use crate::rows::row;
use crate::shapes::Typed;
use crate::unary::applied;
use elab_state::{Around, Halt, Made, Where, spelling};
use expr_rules::Form;
use std::alloc::Global;
use tree_data::{Expr, TypeName};
use type_data::Judged;

// `at` is the opening parenthesis.
#[cycle(judging)]
fn paren(
    alloc: Global,
    around: &Around<'_>,
    place: Where,
    made: &mut Made,
    at: u32,
    inner: &Expr,
) -> Result<Judged, Halt>
    ensures { Comes (told_of around.now) (spec.judge (context_of around.now) place (trees.Paren_of at (tree_of inner.now) 0) made.old) (λ j. j) result made.new }
{
    let inner = match judged(alloc, around, place, made, inner) {
        Ok(done) => done,
        Err(halt) => return Err(halt),
    };
    paren_row(alloc, around, made, at, inner)
}

fn paren_row(
    alloc: Global,
    around: &Around<'_>,
    made: &mut Made,
    at: u32,
    inner: Judged,
) -> Result<Judged, Halt>
    ensures { Comes (told_of around.now) (rows.row (context_of around.now) at form.Paren (inner ∷ []) made.old) (λ j. j) result made.new }
{
    let parts = [inner];
    row(alloc, around, made, at, Form::Paren, &parts)
}

// The size or the alignment, as the keyword `at` says.
fn size_by_keyword(
    alloc: Global,
    around: &Around<'_>,
    made: &mut Made,
    at: u32,
    typed: Typed,
) -> Result<Judged, Halt>
    ensures { Comes (told_of around.now) (casts.size (context_of around.now) at (is_alignment_of (spelling_of (context_of around.now).tokens at)) typed made.old) (λ j. j) result made.new }
{
    let alignment = is_alignment(spelling(around.tokens, at));
    size(alloc, around, made, at, alignment, typed)
}

// `at` is the keyword.
#[cycle(judging)]
fn size_of_type(
    alloc: Global,
    around: &Around<'_>,
    place: Where,
    made: &mut Made,
    at: u32,
    name: &TypeName,
) -> Result<Judged, Halt>
    ensures { Comes (told_of around.now) (spec.judge (context_of around.now) place (trees.Of_type at 0 (type_of name.now) 0) made.old) (λ j. j) result made.new }
{
    let unevaluated = Where {
        counted: false,
        defining: false,
    };
    let typed = match type_name(alloc, around, unevaluated, made, name) {
        Ok(done) => done,
        Err(halt) => return Err(halt),
    };
    size_by_keyword(alloc, around, made, at, typed)
}

/// What an expression is, by recursion over its tree: each construct is judged behind its parts, and these in the order of their
/// tokens. What has a fault has the type `Bad`; the fault is noted in `made`, and so is each occurrence of what is declared, and each
/// tag that is declared.
///
/// `Wants` comes where a name that no scope binds, or a tag of an earlier item that a row tests, has no answer among `around.known`; what
/// is made then is of no use. `NoMemory` comes where memory is refused. The code goes no deeper than the tree; its cost is linear in
/// the tree beside that of the rows.
#[cycle(judging)]
pub fn judged(
    alloc: Global,
    around: &Around<'_>,
    place: Where,
    made: &mut Made,
    expr: &Expr,
) -> Result<Judged, Halt>
    ensures { Comes (told_of around.now) (spec.judge (context_of around.now) place (tree_of expr.now) made.old) (λ j. j) result made.new }
{
    match expr {
        Expr::Name(at) => identifier(alloc, around, made, place.counted, *at),
        Expr::Constant(at) => constant(alloc, around, made, *at),
        Expr::Text(pieces) => text(alloc, around, made, pieces.as_slice()),
        Expr::Paren(at, inner, _) => paren(alloc, around, place, made, *at, inner),
        Expr::OfType(at, _, name, _) => size_of_type(alloc, around, place, made, *at, name),
        Expr::Postfix(first, more) => {
            let first = match judged(alloc, around, place, made, first) {
                Ok(done) => done,
                Err(halt) => return Err(halt),
            };
            suffixes(alloc, around, place, made, first, more)
        }
        Expr::Binary(first, more) => {
            let first = match judged(alloc, around, place, made, first) {
                Ok(done) => done,
                Err(halt) => return Err(halt),
            };
            operands(alloc, around, place, made, first, more)
        }
        Expr::Unary(_, _) => applied(alloc, around, place, made, expr),
        Expr::Conditional(_, _) => applied(alloc, around, place, made, expr),
        Expr::Assign(_, _) => applied(alloc, around, place, made, expr),
        Expr::Compound(_, _, _, _) => completed(alloc, around, place, made, expr),
        Expr::Generic(_, _, _, _, _) => completed(alloc, around, place, made, expr),
        Expr::Offset(_, _, _, _, _, _, _) => completed(alloc, around, place, made, expr),
    }
}
