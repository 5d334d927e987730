// What stands in front of a statement and makes one together with it (ISO C11 6.8.1, 6.8.4, 6.8.5).
ghost use Rattle.std.specs.Prelude.{◌≡◌, ◌+◌, ◌<◌, ◌++◌, [], ◌∷◌, IfOk, option_map};
ghost use Rattle.tree_data.specs.Seen.{tree_of};
ghost use Rattle.tree_data.specs.Stated.{stmt_of, lead_of, leads_of};
ghost use Rattle.tree_data.specs.Statements as tree;
ghost use Rattle.stmt_acts.specs.Acts as spec;
ghost use Rattle.stmt_acts.specs.Bodies as bodies;
ghost use Rattle.stmt_acts.specs.Shown.{act_of, one_of};
ghost use Rattle.stmt_acts.specs.Sizes.{stmt_size, lead_size, leads_size};
ghost use Rattle.stmt_acts.specs.Works.{acts_left, size_left};
ghost use Rattle.stmt_acts.specs.Withins.{looped, switched as switched_of};

use crate::acts::{Act, Within};
use crate::statements::evaluated;
use crate::works::{Work, Works};
use std::alloc::AllocError;
use tree_data::{Expr, Lead, Stmt};

// The condition of a loop, if there is one.
fn tested<'a>(at: u32, expr: &'a Option<Box<Expr>>) -> Option<Act<'a>>
    ensures { one_of result ≡ bodies.tested at (option_map (λ e. tree_of e.value) expr.now) }
{
    match expr {
        Some(expr) => Some(Act::LoopTest(at, expr)),
        None => None,
    }
}

// A label: it makes no block.
fn labelled<'a>(
    works: &mut Works<'a>,
    within: Within,
    act: Act<'a>,
    rest: &'a [Lead],
    stmt: &'a Stmt,
) -> Result<Option<Act<'a>>, AllocError>
    ensures acts { IfOk result (λ a. one_of a ++ acts_left works.new
        ≡ (act_of act.entry ∷ bodies.statement within (tree.led (leads_of rest.now) (stmt_of stmt.now))) ++ acts_left works.old) }
    ensures size { IfOk result (λ a. size_left works.new < 10 + (leads_size rest.now + stmt_size stmt.now) + size_left works.old) }
{
    works.push(Work::Led(within, rest, stmt))?;
    Ok(Some(act))
}

// Two blocks, one in the other, with what is tested between their beginnings; the statement is `within` that.
fn tested_block<'a>(
    works: &mut Works<'a>,
    within: Within,
    act: Act<'a>,
    rest: &'a [Lead],
    stmt: &'a Stmt,
) -> Result<Option<Act<'a>>, AllocError>
    ensures acts { IfOk result (λ a. one_of a ++ acts_left works.new
        ≡ (spec.Enter ∷ act_of act.entry ∷ spec.Enter ∷ (bodies.statement within (tree.led (leads_of rest.now) (stmt_of stmt.now)) ++ (spec.Leave ∷ spec.Leave ∷ []))) ++ acts_left works.old) }
    ensures size { IfOk result (λ a. size_left works.new < 10 + (leads_size rest.now + stmt_size stmt.now) + size_left works.old) }
{
    works.act(Act::Leave)?;
    works.act(Act::Leave)?;
    works.push(Work::Led(within, rest, stmt))?;
    works.act(Act::Enter)?;
    works.act(act)?;
    Ok(Some(Act::Enter))
}

// `if ( expression ) statement else`
fn chosen<'a>(
    works: &mut Works<'a>,
    within: Within,
    act: Act<'a>,
    first: &'a Stmt,
    rest: &'a [Lead],
    otherwise: &'a Stmt,
) -> Result<Option<Act<'a>>, AllocError>
    ensures acts { IfOk result (λ a. one_of a ++ acts_left works.new
        ≡ (spec.Enter ∷ act_of act.entry ∷ spec.Enter ∷ (bodies.statement within (stmt_of first.now) ++ (spec.Leave ∷ spec.Enter
        ∷ (bodies.statement within (tree.led (leads_of rest.now) (stmt_of otherwise.now)) ++ (spec.Leave ∷ spec.Leave ∷ []))))) ++ acts_left works.old) }
    ensures size { IfOk result (λ a. size_left works.new < 10 + stmt_size first.now + (leads_size rest.now + stmt_size otherwise.now) + size_left works.old) }
{
    works.act(Act::Leave)?;
    works.act(Act::Leave)?;
    works.push(Work::Led(within, rest, otherwise))?;
    works.act(Act::Enter)?;
    works.act(Act::Leave)?;
    works.push(Work::Stated(within, first))?;
    works.act(Act::Enter)?;
    works.act(act)?;
    Ok(Some(Act::Enter))
}

// `switch ( expression )`
fn switched<'a>(
    works: &mut Works<'a>,
    within: Within,
    at: u32,
    value: &'a Expr,
    rest: &'a [Lead],
    stmt: &'a Stmt,
) -> Result<Option<Act<'a>>, AllocError>
    ensures acts { IfOk result (λ a. one_of a ++ acts_left works.new
        ≡ (spec.Enter ∷ spec.Switch_on at (tree_of value.now) ∷ spec.Enter
        ∷ (bodies.statement (switched_of within) (tree.led (leads_of rest.now) (stmt_of stmt.now)) ++ (spec.Leave ∷ spec.End_switch ∷ spec.Leave ∷ []))) ++ acts_left works.old) }
    ensures size { IfOk result (λ a. size_left works.new < 10 + (leads_size rest.now + stmt_size stmt.now) + size_left works.old) }
{
    works.act(Act::Leave)?;
    works.act(Act::EndSwitch)?;
    works.act(Act::Leave)?;
    works.push(Work::Led(within.switched(), rest, stmt))?;
    works.act(Act::Enter)?;
    works.act(Act::SwitchOn(at, value))?;
    Ok(Some(Act::Enter))
}

// `for ( .. ; .. ; .. )`: the third part is read in front of the statement.
fn iterated<'a>(
    works: &mut Works<'a>,
    within: Within,
    first: Option<Act<'a>>,
    test: Option<Act<'a>>,
    step: Option<Act<'a>>,
    rest: &'a [Lead],
    stmt: &'a Stmt,
) -> Result<Option<Act<'a>>, AllocError>
    ensures acts { IfOk result (λ a. one_of a ++ acts_left works.new
        ≡ (spec.Enter ∷ (one_of first.entry ++ (one_of test.entry ++ (one_of step.entry ++ (spec.Enter
        ∷ (bodies.statement (looped within) (tree.led (leads_of rest.now) (stmt_of stmt.now)) ++ (spec.Leave ∷ spec.Leave ∷ []))))))) ++ acts_left works.old) }
    ensures size { IfOk result (λ a. size_left works.new < 10 + (leads_size rest.now + stmt_size stmt.now) + size_left works.old) }
{
    works.act(Act::Leave)?;
    works.act(Act::Leave)?;
    works.push(Work::Led(within.looped(), rest, stmt))?;
    works.act(Act::Enter)?;
    works.perhaps(step)?;
    works.perhaps(test)?;
    works.perhaps(first)?;
    Ok(Some(Act::Enter))
}

fn lead<'a>(
    works: &mut Works<'a>,
    within: Within,
    lead: &'a Lead,
    rest: &'a [Lead],
    stmt: &'a Stmt,
) -> Result<Option<Act<'a>>, AllocError>
    ensures acts { IfOk result (λ a. one_of a ++ acts_left works.new
        ≡ (bodies.front within (lead_of lead.now) ++ (bodies.statement (bodies.inside within (lead_of lead.now)) (tree.led (leads_of rest.now) (stmt_of stmt.now))
        ++ bodies.back (lead_of lead.now))) ++ acts_left works.old) }
    ensures size { IfOk result (λ a. size_left works.new < lead_size lead.now + (leads_size rest.now + stmt_size stmt.now) + size_left works.old) }
{
    match lead {
        Lead::Label(name, _) => labelled(works, within, Act::Label(*name), rest, stmt),
        Lead::Case(at, value, _) => labelled(works, within, Act::CaseLabel(*at, value), rest, stmt),
        Lead::Default(at, _) => labelled(works, within, Act::DefaultLabel(*at), rest, stmt),
        Lead::If(at, _, test, _) => tested_block(works, within, Act::IfTest(*at, test), rest, stmt),
        Lead::IfElse(at, _, test, _, first, _) => {
            chosen(works, within, Act::IfTest(*at, test), first, rest, stmt)
        }
        Lead::Switch(at, _, value, _) => switched(works, within, *at, value, rest, stmt),
        Lead::While(at, _, test, _) => {
            tested_block(works, within.looped(), Act::LoopTest(*at, test), rest, stmt)
        }
        Lead::For(at, _, first, _, test, _, step, _) => iterated(
            works,
            within,
            evaluated(first),
            tested(*at, test),
            evaluated(step),
            rest,
            stmt,
        ),
        Lead::ForDeclaring(at, _, first, test, _, step, _) => iterated(
            works,
            within,
            Some(Act::DeclareInFor(first)),
            tested(*at, test),
            evaluated(step),
            rest,
            stmt,
        ),
    }
}

// What a statement with these in front of it takes the place of: its first step, or none, and what is left behind that.
pub(crate) fn led<'a>(
    works: &mut Works<'a>,
    within: Within,
    leads: &'a [Lead],
    stmt: &'a Stmt,
) -> Result<Option<Act<'a>>, AllocError>
    ensures acts { IfOk result (λ a. one_of a ++ acts_left works.new
        ≡ bodies.statement within (tree.led (leads_of leads.now) (stmt_of stmt.now)) ++ acts_left works.old) }
    ensures size { IfOk result (λ a. size_left works.new < 1 + (leads_size leads.now + stmt_size stmt.now) + size_left works.old) }
{
    match leads.split_first() {
        Some((first, rest)) => lead(works, within, first, rest, stmt),
        None => {
            works.push(Work::Stated(within, stmt))?;
            Ok(None)
        }
    }
}
