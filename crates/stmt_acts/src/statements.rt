// Statements, and what blocks consist of (ISO C11 6.8).
ghost use Rattle.std.specs.Prelude.{◌≡◌, ◌+◌, ◌<◌, ◌++◌, [], ◌∷◌, IfOk, option_map};
ghost use Rattle.tree_data.specs.Seen.{tree_of};
ghost use Rattle.tree_data.specs.Stated.{stmt_of, item_of, items_of};
ghost use Rattle.tree_data.specs.Statements as tree;
ghost use Rattle.stmt_acts.specs.Acts as spec;
ghost use Rattle.stmt_acts.specs.Bodies as bodies;
ghost use Rattle.stmt_acts.specs.Shown.{one_of};
ghost use Rattle.stmt_acts.specs.Sizes.{stmt_size, item_size, items_size};
ghost use Rattle.stmt_acts.specs.Withins.{looped};
ghost use Rattle.stmt_acts.specs.Works.{acts_left, size_left};

use crate::acts::{Act, Within};
use crate::works::{Work, Works};
use std::alloc::AllocError;
use tree_data::{Expr, Item, Stmt};

// An expression of its own, if there is one.
pub(crate) fn lent<'a>(expr: &'a Option<Box<Expr>>) -> Option<&'a Expr>
    ensures { option_map (λ e. tree_of e.now) result ≡ option_map (λ e. tree_of e.value) expr.now }
{
    match expr {
        Some(expr) => Some(expr),
        None => None,
    }
}

pub(crate) fn evaluated<'a>(expr: &'a Option<Box<Expr>>) -> Option<Act<'a>>
    ensures { one_of result ≡ bodies.evaluated (option_map (λ e. tree_of e.value) expr.now) }
{
    match expr {
        Some(expr) => Some(Act::Evaluate(expr)),
        None => None,
    }
}

// `{ items }`
fn block<'a>(
    works: &mut Works<'a>,
    within: Within,
    items: &'a [Item],
) -> Result<Option<Act<'a>>, AllocError>
    ensures acts { IfOk result (λ a. one_of a ++ acts_left works.new
        ≡ (spec.Enter ∷ (bodies.items within (tree.items (items_of items.now)) ++ (spec.Leave ∷ []))) ++ acts_left works.old) }
    ensures size { IfOk result (λ a. size_left works.new < 10 + items_size items.now + size_left works.old) }
{
    works.act(Act::Leave)?;
    works.push(Work::Listed(within, items))?;
    Ok(Some(Act::Enter))
}

// `do statement while ( expression ) ;`
fn repeated<'a>(
    works: &mut Works<'a>,
    within: Within,
    at: u32,
    stmt: &'a Stmt,
    test: &'a Expr,
) -> Result<Option<Act<'a>>, AllocError>
    ensures acts { IfOk result (λ a. one_of a ++ acts_left works.new
        ≡ (spec.Enter ∷ spec.Enter ∷ (bodies.statement (looped within) (stmt_of stmt.now) ++ (spec.Leave ∷ spec.Loop_test at (tree_of test.now) ∷ spec.Leave ∷ []))) ++ acts_left works.old) }
    ensures size { IfOk result (λ a. size_left works.new < 10 + stmt_size stmt.now + size_left works.old) }
{
    works.act(Act::Leave)?;
    works.act(Act::LoopTest(at, test))?;
    works.act(Act::Leave)?;
    works.push(Work::Stated(within.looped(), stmt))?;
    works.act(Act::Enter)?;
    Ok(Some(Act::Enter))
}

// What a statement takes the place of: its first step, or none, and what is left behind that.
pub(crate) fn statement<'a>(
    works: &mut Works<'a>,
    within: Within,
    stmt: &'a Stmt,
) -> Result<Option<Act<'a>>, AllocError>
    ensures acts { IfOk result (λ a. one_of a ++ acts_left works.new ≡ bodies.statement within (stmt_of stmt.now) ++ acts_left works.old) }
    ensures size { IfOk result (λ a. size_left works.new < stmt_size stmt.now + size_left works.old) }
{
    match stmt {
        Stmt::Block(_, items, _) => block(works, within, items.as_slice()),
        Stmt::Expression(expr, _) => Ok(evaluated(expr)),
        Stmt::Goto(_, name, _) => Ok(Some(Act::Goto(*name))),
        Stmt::Continue(at, _) => Ok(Some(Act::Continue(*at, within))),
        Stmt::Break(at, _) => Ok(Some(Act::Break(*at, within))),
        Stmt::Return(at, value, _) => Ok(Some(Act::Return(*at, lent(value)))),
        Stmt::Do(at, inner, _, _, test, _, _) => repeated(works, within, *at, inner, test),
        Stmt::Led(leads, inner) => {
            works.push(Work::Led(within, leads.as_slice(), inner))?;
            Ok(None)
        }
    }
}

fn item<'a>(
    works: &mut Works<'a>,
    within: Within,
    item: &'a Item,
) -> Result<Option<Act<'a>>, AllocError>
    ensures acts { IfOk result (λ a. one_of a ++ acts_left works.new ≡ bodies.item within (item_of item.now) ++ acts_left works.old) }
    ensures size { IfOk result (λ a. size_left works.new < item_size item.now + size_left works.old) }
{
    match item {
        Item::Declared(head) => Ok(Some(Act::Declare(head))),
        Item::Stated(stmt) => {
            works.push(Work::Stated(within, stmt))?;
            Ok(None)
        }
    }
}

// The same for what a block consists of.
pub(crate) fn listed<'a>(
    works: &mut Works<'a>,
    within: Within,
    items: &'a [Item],
) -> Result<Option<Act<'a>>, AllocError>
    ensures acts { IfOk result (λ a. one_of a ++ acts_left works.new ≡ bodies.items within (tree.items (items_of items.now)) ++ acts_left works.old) }
    ensures size { IfOk result (λ a. size_left works.new < 1 + items_size items.now + size_left works.old) }
{
    match items.split_first() {
        Some((first, rest)) => {
            works.push(Work::Listed(within, rest))?;
            item(works, within, first)
        }
        None => Ok(None),
    }
}
