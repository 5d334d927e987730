// What was read in front of an `if` or a `do` whose statement isn't read yet, and how it goes on behind that statement (ISO C11 6.8.4.1, 6.8.5.2).
ghost use Rattle.std.specs.Prelude.{◌≡◌, ℕ, ◌+◌, ◌<◌, ◌≤◌, length, ◌∷◌, ◌++◌, [], IfOk, IfErr, OnOk, MatchOption};
ghost use Rattle.tree_data.specs.Seen.{tree_of};
ghost use Rattle.tree_data.specs.Stated.{stmt_of, leads_of};
ghost use Rattle.tree_data.specs.Statements as tree;
ghost use Rattle.tree_data.specs.Statements.{Statement};
ghost use Rattle.c_parser.specs.declared.kinds.Kind.TheVariants as kind;
ghost use Rattle.c_parser.specs.Parts.{PartsLaw};
ghost use Rattle.c_parser.specs.Words.{Words, kind_in};
ghost use Rattle.stmt_parser.specs.Found.{FoundStatement, FailsStatement};
ghost use Rattle.stmt_parser.specs.Frames as spec;
ghost use Rattle.stmt_parser.specs.Frames.{Opens, Leading, Awaited, Settles, Goes};

use crate::parts::test;
use c_parser::{Kind, Scope, Stop, past_expression, push};
use std::alloc::{AllocError, Global};
use tree_data::{Expr, Lead, Stmt};

// What awaits a statement: `if ( expression )`, with the number of the `)`, or `do`.
#[derive(Drop)]
pub(crate) enum Opener {
    If(Expr, u32),
    Do,
}

// What stands in front of an opener, the number of its first token, and the identifiers in force behind it.
#[derive(Drop)]
pub(crate) struct Frame<'a> {
    leads: Vec<Lead>,
    at: u32,
    opener: Opener,
    scope: Scope<'a>,
}

// What a frame is once its statement is read: a statement, as what stands in front of it from the last to the first and what ends it, and the
// number behind its last token; or one lead more, behind which another statement stands.
#[derive(Drop)]
pub(crate) enum Settled<'a> {
    Whole(Vec<Lead>, Stmt, u32),
    Goes(Vec<Lead>, Scope<'a>, u32),
}

// A statement that is read, and the number behind its last token; or frames and what stands behind the last of them, up to a place.
#[derive(Drop)]
pub(crate) enum Progress<'a> {
    Whole(Stmt, u32),
    Goes(Vec<Frame<'a>>, Vec<Lead>, Scope<'a>, u32),
}

// The identifiers in force where the statement begins that this awaits.
pub(crate) fn inside_opener<'a>(
    alloc: Global,
    scope: &Scope<'a>,
    at: u32,
    opener: &Opener,
) -> Result<Scope<'a>, AllocError>
    requires size { at ≤ 2000000 }
    requires opens { Opens scope.now at opener.now }
    ensures { IfOk result (λ s. s ≡ spec.inside_opener scope.now opener.now) }
{
    let shared = scope.share()?;
    match opener {
        Opener::If(_, closing) => {
            let inside = past_expression(alloc, shared, at + 2, *closing)?;
            Ok(inside)
        }
        Opener::Do => Ok(shared),
    }
}

// The frames with one more.
pub(crate) fn opened<'a>(
    frames: Vec<Frame<'a>>,
    leads: Vec<Lead>,
    at: u32,
    opener: Opener,
    scope: Scope<'a>,
) -> Result<Vec<Frame<'a>>, AllocError>
    ensures { IfOk result (λ fs. fs.items ≡ frames.entry.items ++ record { leads = leads; at = at; opener = opener; scope = scope.entry } ∷ []) }
{
    let mut frames = frames;
    frames.push(Frame {
        leads,
        at,
        opener,
        scope,
    })?;
    Ok(frames)
}

// Takes the last frame away.
fn last<'a>(frames: &mut Vec<Frame<'a>>) -> Option<Frame<'a>>
    ensures { MatchOption result (frames.old.items ≡ []) (λ frame. frames.old.items ≡ frames.new.items ++ frame ∷ []) }
{
    frames.pop()
}

// Puts these in front of what stands in front of a statement.
fn prepend(behind: &mut Vec<Lead>, leads: Vec<Lead>) -> Result<(), AllocError>
    ensures { OnOk result ((s : Statement) → spec.led_back (leads_of behind.new.items) s
        ≡ tree.led (leads_of leads.items) (spec.led_back (leads_of behind.old.items) s)) }
{
    let mut rest = leads;
    'leads: while let Some(lead) = rest.pop() {
        push(behind, lead)?;
    }
    Ok(())
}

// The statement.
fn finished(alloc: Global, behind: Vec<Lead>, core: Stmt) -> Result<Stmt, AllocError>
    ensures { IfOk result (λ s. stmt_of s ≡ spec.led_back (leads_of behind.items) (stmt_of core)) }
{
    let mut leads = behind;
    leads.as_mut_slice().reverse();
    let stmt = Stmt::led(alloc, leads, core)?;
    Ok(stmt)
}

// What stands in front of a statement, as what stands behind it is read.
fn turned(alloc: Global, leads: Vec<Lead>) -> Result<Vec<Lead>, AllocError>
    ensures { IfOk result (λ b. (s : Statement) → spec.led_back (leads_of b.items) s ≡ tree.led (leads_of leads.items) s) }
{
    let mut behind = Vec::new(alloc);
    prepend(&mut behind, leads)?;
    Ok(behind)
}

// An `if` without an `else` in front of a statement, with what stands in front of that `if`.
fn alone(
    alloc: Global,
    behind: Vec<Lead>,
    leads: Vec<Lead>,
    at: u32,
    test: Expr,
    closing: u32,
) -> Result<Vec<Lead>, AllocError>
    requires { at ≤ 2000000 }
    ensures { IfOk result (λ b. (s : Statement) → spec.led_back (leads_of b.items) s
        ≡ tree.led (leads_of leads.items) (tree.led (tree.If_of at (at + 1) (tree_of test) closing ∷ []) (spec.led_back (leads_of behind.items) s))) }
{
    let lead = Lead::when(alloc, at, at + 1, test, closing)?;
    let mut behind = behind;
    push(&mut behind, lead)?;
    prepend(&mut behind, leads)?;
    Ok(behind)
}

// An `if` with the statement that it chooses and the `else` behind that.
fn chosen(
    alloc: Global,
    leads: Vec<Lead>,
    at: u32,
    test: Expr,
    closing: u32,
    chosen: Stmt,
    otherwise: u32,
) -> Result<Vec<Lead>, AllocError>
    requires { at ≤ 2000000 }
    ensures { IfOk result (λ ls. leads_of ls.items
        ≡ leads_of leads.items ++ tree.If_else_of at (at + 1) (tree_of test) closing (stmt_of chosen) otherwise ∷ []) }
{
    let lead = Lead::when_else(alloc, at, at + 1, test, closing, chosen, otherwise)?;
    let mut leads = leads;
    push(&mut leads, lead)?;
    Ok(leads)
}

// `while ( expression ) ;` behind the statement of a `do`.
fn do_while(
    alloc: Global,
    scope: &Scope<'_>,
    at: u32,
    body: Stmt,
    behind: u32,
) -> Result<(Stmt, u32), Stop>
    requires law { PartsLaw }
    requires size { length scope.now.kinds ≤ 2000000 }
    requires kind { kind_in scope.now at ≡ kind.Do }
    requires body { FoundStatement scope.now (at + 1) (stmt_of body) behind }
    ensures found { IfOk result (λ r. FoundStatement scope.now at (stmt_of r.0) r.1) }
    ensures forth { IfOk result (λ r. behind ≤ r.1) }
    ensures fails { IfErr result (FailsStatement scope.now at) }
{
    let Kind::While = scope.kind_at(behind) else {
        return Err(Stop::Syntax(behind));
    };
    let (value, closing) = match test(alloc, scope, behind + 1) {
        Ok(found) => found,
        Err(stop) => return Err(stop),
    };
    let Kind::Semicolon = scope.kind_at(closing + 1) else {
        return Err(Stop::Syntax(closing + 1));
    };
    match Stmt::do_while(
        alloc,
        at,
        body,
        behind,
        behind + 1,
        value,
        closing,
        closing + 1,
    ) {
        Ok(stmt) => Ok((stmt, closing + 2)),
        Err(_) => Err(Stop::NoMemory),
    }
}

// A frame of a `do` whose statement was read up to `end`.
fn looped<'a>(
    alloc: Global,
    leads: Vec<Lead>,
    scope: &Scope<'a>,
    at: u32,
    body: Stmt,
    end: u32,
) -> Result<Settled<'a>, Stop>
    requires law { PartsLaw }
    requires size { length scope.now.kinds ≤ 2000000 }
    requires kind { kind_in scope.now at ≡ kind.Do }
    requires body { FoundStatement scope.now (at + 1) (stmt_of body) end }
    ensures settled { (w : Words) → (a : ℕ) → Leading w a (leads_of leads.items) scope.now at → IfOk result (Settles w a) }
    ensures forth { IfOk result (spec.SettlesPast end) }
    ensures fails { IfErr result (FailsStatement scope.now at) }
{
    let (stmt, next) = match do_while(alloc, scope, at, body, end) {
        Ok(found) => found,
        Err(stop) => return Err(stop),
    };
    match turned(alloc, leads) {
        Ok(behind) => Ok(Settled::Whole(behind, stmt, next)),
        Err(_) => Err(Stop::NoMemory),
    }
}

// A frame whose statement was read up to `end`: an `else` that stands there goes with its `if` (6.8.4.1p3).
fn settle<'a>(
    alloc: Global,
    frame: Frame<'a>,
    behind: Vec<Lead>,
    core: Stmt,
    end: u32,
) -> Result<Settled<'a>, Stop>
    requires law { PartsLaw }
    requires size { length frame.scope.kinds ≤ 2000000 }
    requires opens { Opens frame.scope frame.at frame.opener }
    requires found { FoundStatement (spec.inside_opener frame.scope frame.opener) (spec.behind_opener frame.at frame.opener) (spec.led_back (leads_of behind.items) (stmt_of core)) end }
    ensures settled { (w : Words) → (a : ℕ) → Leading w a (leads_of frame.entry.leads.items) frame.entry.scope frame.entry.at → IfOk result (Settles w a) }
    ensures forth { IfOk result (spec.SettlesPast end) }
    ensures fails { IfErr result (FailsStatement frame.entry.scope frame.entry.at) }
{
    let Frame {
        leads,
        at,
        opener,
        scope,
    } = frame;
    match opener {
        Opener::If(test, closing) => {
            let Kind::Else = scope.kind_at(end) else {
                let front = match alone(alloc, behind, leads, at, test, closing) {
                    Ok(front) => front,
                    Err(_) => return Err(Stop::NoMemory),
                };
                return Ok(Settled::Whole(front, core, end));
            };
            let Ok(stmt) = finished(alloc, behind, core) else {
                return Err(Stop::NoMemory);
            };
            let Ok(inside) = past_expression(alloc, scope, at + 2, closing) else {
                return Err(Stop::NoMemory);
            };
            match chosen(alloc, leads, at, test, closing, stmt, end) {
                Ok(leads) => Ok(Settled::Goes(leads, inside, end + 1)),
                Err(_) => Err(Stop::NoMemory),
            }
        }
        Opener::Do => {
            let Ok(body) = finished(alloc, behind, core) else {
                return Err(Stop::NoMemory);
            };
            looped(alloc, leads, &scope, at, body, end)
        }
    }
}

// All frames, from the last on, behind which this core was read up to `end`, with these in front of it.
pub(crate) fn close<'a>(
    alloc: Global,
    _scope: &Scope<'_>,
    _at: u32,
    frames: Vec<Frame<'a>>,
    leads: Vec<Lead>,
    core: Stmt,
    end: u32,
) -> Result<Progress<'a>, Stop>
    requires law { PartsLaw }
    requires size { length _scope.now.kinds ≤ 2000000 }
    requires awaited { Awaited _scope.now _at frames.items (tree.led (leads_of leads.items) (stmt_of core)) end }
    ensures goes { IfOk result (Goes _scope.now _at) }
    ensures forth { IfOk result (spec.GoesPast end) }
    ensures fails { IfErr result (FailsStatement _scope.now _at) }
{
    let mut behind = match turned(alloc, leads) {
        Ok(behind) => behind,
        Err(_) => return Err(Stop::NoMemory),
    };
    let mut frames = frames;
    let mut core = core;
    let mut end = end;
    'frames: loop {
        let frame = match last(&mut frames) {
            Some(frame) => frame,
            None => {
                let stmt = match finished(alloc, behind, core) {
                    Ok(stmt) => stmt,
                    Err(_) => return Err(Stop::NoMemory),
                };
                return Ok(Progress::Whole(stmt, end));
            }
        };
        let settled = match settle(alloc, frame, behind, core, end) {
            Ok(settled) => settled,
            Err(stop) => return Err(stop),
        };
        match settled {
            Settled::Whole(front, stmt, next) => {
                behind = front;
                core = stmt;
                end = next;
            }
            Settled::Goes(front, scope, next) => {
                return Ok(Progress::Goes(frames, front, scope, next));
            }
        }
    }
}
