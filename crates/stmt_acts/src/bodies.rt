// The steps of a function's body (ISO C11 6.8, 6.9.1).
ghost use Rattle.std.specs.Prelude.{◌≡◌, ◌+◌, ◌<◌, ◌++◌, ◌∷◌, [], IfOk, OnOk, option_map};
ghost use Rattle.tree_data.specs.Stated.{stmt_of, items_of};
ghost use Rattle.tree_data.specs.Statements as tree;
ghost use Rattle.stmt_acts.specs.Bodies as bodies;
ghost use Rattle.stmt_acts.specs.Shown.{act_of, one_of};
ghost use Rattle.stmt_acts.specs.Shown as shown;
ghost use Rattle.stmt_acts.specs.Works as spec;

use crate::acts::{Act, Within};
use crate::leads::led;
use crate::statements::{listed, statement};
use crate::works::{Work, Works};
use std::alloc::{AllocError, Global};
use tree_data::{Item, Stmt};

// What stands between the braces of a block that nothing stands in front of.
fn items_in<'a>(stmt: &'a Stmt) -> Option<&'a [Item]>
    ensures { option_map (λ is. tree.items (items_of is.now)) result ≡ bodies.items_in (stmt_of stmt.now) }
{
    let mut here = stmt;
    'inward: loop {
        match here {
            Stmt::Block(_, items, _) => return Some(items.as_slice()),
            Stmt::Expression(_, _) => return None,
            Stmt::Goto(_, _, _) => return None,
            Stmt::Continue(_, _) => return None,
            Stmt::Break(_, _) => return None,
            Stmt::Return(_, _, _) => return None,
            Stmt::Do(_, _, _, _, _, _, _) => return None,
            Stmt::Led(leads, inner) => {
                if leads.as_slice().is_empty() {
                    here = inner;
                    continue;
                }
                return None;
            }
        }
    }
}

// Begins with all that is to be done.
fn begin<'a>(works: &mut Works<'a>, body: &'a Stmt) -> Result<(), AllocError>
    ensures { OnOk result (spec.acts_left works.new ≡ bodies.body (stmt_of body.now) ++ spec.acts_left works.old) }
{
    match items_in(body) {
        Some(items) => works.push(Work::Listed(Within::nowhere(), items)),
        None => works.push(Work::Stated(Within::nowhere(), body)),
    }
}

// The first step of what comes next, or none; what comes behind that is left.
fn taken<'a>(works: &mut Works<'a>, work: Work<'a>) -> Result<Option<Act<'a>>, AllocError>
    ensures acts { IfOk result (λ a. one_of a ++ spec.acts_left works.new ≡ spec.acts_in work.entry ++ spec.acts_left works.old) }
    ensures size { IfOk result (λ a. spec.size_left works.new < spec.size_in work.entry + spec.size_left works.old) }
{
    match work {
        Work::Done(act) => Ok(Some(act)),
        Work::Stated(within, stmt) => statement(works, within, stmt),
        Work::Listed(within, items) => listed(works, within, items),
        Work::Led(within, leads, stmt) => led(works, within, leads, stmt),
    }
}

fn push<'a>(acts: &mut Vec<Act<'a>>, act: Act<'a>) -> Result<(), AllocError>
    ensures { OnOk result (shown.acts_of acts.new.items ≡ shown.acts_of acts.old.items ++ act_of act.entry ∷ []) }
{
    acts.push(act)?;
    Ok(())
}

// Puts a step, if there is one, behind the others.
fn put<'a>(acts: &mut Vec<Act<'a>>, act: Option<Act<'a>>) -> Result<(), AllocError>
    ensures { OnOk result (shown.acts_of acts.new.items ≡ shown.acts_of acts.old.items ++ one_of act.entry) }
{
    match act {
        Some(act) => push(acts, act),
        None => Ok(()),
    }
}

/// What there is to check of a function's body, in the order of its tokens (ISO C11 6.8). The block that the body is gives no step of its
/// own: the parameters are declared in it (6.2.1p4). The third part of a `for` stands where it is read, in front of the statement. What is
/// lent stays the tree's.
///
/// The time and the memory are linear in the body; none of the machine's stack is taken by statements within one another. It fails for
/// want of memory alone.
pub fn acts_of<'a>(alloc: Global, body: &'a Stmt) -> Result<Vec<Act<'a>>, AllocError>
    ensures { IfOk result (λ acts. shown.acts_of acts.items ≡ bodies.body (stmt_of body.now)) }
{
    let mut acts = Vec::new(alloc);
    let mut works = Works::new(alloc);
    begin(&mut works, body)?;
    'works: loop {
        let Some(work) = works.pop() else {
            return Ok(acts);
        };
        let act = taken(&mut works, work)?;
        put(&mut acts, act)?;
    }
}
