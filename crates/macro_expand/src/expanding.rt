// Macro expansion (ISO C11 6.10.3).
ghost use Rattle.std.specs.Prelude.{◌≡◌, ◌≤◌, ◌<◌, map as list_map, IfOk, OnOk, decimal};
ghost use Rattle.macro_expand.specs.Ties.Codes.{Names};
ghost use Rattle.macro_expand.specs.Ties.Stands.{Stands, Grows};
ghost use Rattle.macro_expand.specs.Ties.Numbers.{real, reals};
ghost use Rattle.std.specs.FinMap as map;
ghost use Rattle.macro_expand.specs.Expansion as spec;
ghost use Rattle.macro_expand.specs.Ties.Steps as steps;
ghost use Rattle.macro_expand.specs.Progress as made;
ghost use Rattle.macro_expand.specs.Ties.Machine as work;
ghost use Rattle.macro_expand.specs.Substitution.{Expander};
ghost use Rattle.macro_expand.specs.Tokens as tokens;
ghost use Rattle.macro_expand.specs.Ties.Keeping as keeping;
ghost use Rattle.macro_expand.specs.Room.{within};

use crate::arguments::ArgumentList;
use crate::finding::{Found, Meaning, macro_found};
use crate::growing::Growing;
use crate::hide::HideSet;
use crate::keeping::{Held, Kept};
use crate::lines::Lines;
use crate::machine::expansion;
use crate::operands::quoted_text;
use crate::rest::Rest;
use crate::sets::Sets;
use crate::splicing::dropped;
use crate::types::{Expanded, Marked, MarkedList, Progress, Within};
use macro_table::{MacroDef, MacroTable};
use shared_text::Name;
use std::alloc::{AllocError, Global};
use tok_data::{MacroOccs, OutToken, OutTokens, PpFaults, PpKind, Spelt, TokId, TokIds};

// What came of the first token of a list: it is kept, or its replacement stands in what is left.
#[derive(Drop)]
pub(crate) struct Step<'a> {
    pub(crate) progress: Progress,
    pub(crate) kept: Option<Marked>,
    pub(crate) rest: Rest<'a>,
}

fn kept<'a>(progress: Progress, token: Marked, rest: Rest<'a>) -> Step<'a>
    ensures { result ≡ steps.kept_step progress token rest.entry }
{
    Step {
        progress,
        kept: Some(token),
        rest,
    }
}

// The token with another kind and spelling, made in its place.
fn made_token(token: Marked, kind: PpKind, spelling: Name) -> Marked
    ensures { result ≡ spec.made_token token kind spelling }
{
    let Marked { token, hides } = token;
    let OutToken {
        kind: _,
        spelling: _,
        space_before,
        spelt: _,
        site,
    } = token;
    Marked {
        token: OutToken {
            kind,
            spelling,
            space_before,
            spelt: Spelt::Made,
            site,
        },
        hides,
    }
}

fn decimal_name(alloc: Global, number: u32) -> Result<Name, AllocError>
    ensures { IfOk result (λ name. name ≡ decimal number) }
{
    let text = format!(in alloc; "{number}")?;
    Name::from_str(alloc, text.as_str())
}

fn put<'a>(progress: Progress, token: Marked, rest: Rest<'a>) -> Result<Step<'a>, AllocError>
    ensures { IfOk result (λ s. s ≡ steps.put_step progress token rest.entry) }
{
    let rest = rest.before(token)?;
    Ok(Step {
        progress,
        kept: None,
        rest,
    })
}

fn refused_step<'a>(
    alloc: Global,
    progress: Progress,
    token: Marked,
    rest: Rest<'a>,
) -> Result<Step<'a>, AllocError>
    ensures { IfOk result (λ s. s ≡ steps.kept_step (made.refused token progress) token rest.entry) }
{
    let mut progress = progress;
    progress.refused(alloc, &token)?;
    Ok(kept(progress, token, rest))
}

// `__LINE__`.
fn line_step<'a>(
    alloc: Global,
    lines: &Lines<'_>,
    progress: Progress,
    token: Marked,
    rest: Rest<'a>,
) -> Result<Step<'a>, AllocError>
    ensures value { IfOk result (λ s. (f : Names → Names)
        → steps.real_step f s
        ≡ steps.settled (real f token) (reals f rest.entry) (spec.line_found lines.now progress (real f token))) }
    ensures nearer { IfOk result (λ s. steps.IsNearer s progress.left rest.entry) }
{
    if progress.left == 0 {
        let step = refused_step(alloc, progress, token, rest)?;
        return Ok(step);
    }
    let mut progress = progress;
    let Some(line) = lines.line(&token.token.site) else {
        progress.asking(&token)?;
        return Ok(kept(progress, token, rest));
    };
    let text = decimal_name(alloc, line)?;
    progress.counted(&token, None)?;
    let step = put(progress, made_token(token, PpKind::Number, text), rest)?;
    Ok(step)
}

// `__FILE__`.
fn file_step<'a>(
    alloc: Global,
    progress: Progress,
    token: Marked,
    rest: Rest<'a>,
) -> Result<Step<'a>, AllocError>
    ensures value { IfOk result (λ s. (f : Names → Names)
        → steps.real_step f s
        ≡ steps.settled (real f token) (reals f rest.entry) (spec.file_found progress (real f token))) }
    ensures nearer { IfOk result (λ s. steps.IsNearer s progress.left rest.entry) }
{
    if progress.left == 0 {
        let step = refused_step(alloc, progress, token, rest)?;
        return Ok(step);
    }
    let text = quoted_text(alloc, token.token.site.file.as_str())?;
    let mut progress = progress;
    progress.counted(&token, None)?;
    let step = put(progress, made_token(token, PpKind::Str, text), rest)?;
    Ok(step)
}

// What comes of a token: a step is taken, or it is replaced by a definition's list, with what is noted then, arguments,
// a hide set and what stands behind the call.
#[derive(Drop)]
pub(crate) enum Taken<'a> {
    Settled(Step<'a>),
    Called(Progress, Marked, &'a MacroDef, ArgumentList, HideSet, Rest<'a>),
}

// What stands behind a macro's name, with its parentheses counted where the macro takes arguments: an open call isn't
// read.
fn behind_name<'a>(alloc: Global, def: &MacroDef, rest: Rest<'a>) -> Result<Rest<'a>, AllocError>
    ensures { IfOk result (λ r. r ≡ rest.entry) }
{
    if def.params.is_none() {
        return Ok(rest);
    }
    rest.counted(alloc)
}

fn macro_step<'a>(
    alloc: Global,
    sets: &mut Sets,
    progress: Progress,
    token: Marked,
    rest: Rest<'a>,
    def: &'a MacroDef,
) -> Result<Taken<'a>, AllocError>
    ensures grows { OnOk result (Grows sets.old sets.new) }
    ensures value { IfOk result (λ s. (f : Names → Names) → Stands f sets.new → (again : Expander)
        → work.taken_outcome f again s
        ≡ steps.after again (steps.step_by again (real f token) (reals f rest.entry)
        (spec.macro_found progress (real f token) (reals f rest.entry) def.now def.now.params))) }
    ensures nearer { IfOk result (λ s. work.IsTaken s progress.left rest.entry) }
{
    let mut progress = progress;
    let rest = behind_name(alloc, def, rest)?;
    let found = macro_found(alloc, sets, &mut progress, &token, &rest, def)?;
    match found {
        Found::Stays => Ok(Taken::Settled(kept(progress, token, rest))),
        Found::Replaced { args, names, width } => {
            Ok(Taken::Called(progress, token, def, args, names, dropped(width, rest)))
        }
    }
}

// What comes of the first token of a list, whose name means this.
pub(crate) fn take_step<'a>(
    alloc: Global,
    sets: &mut Sets,
    lines: &Lines<'_>,
    meaning: Meaning<'a>,
    progress: Progress,
    token: Marked,
    rest: Rest<'a>,
) -> Result<Taken<'a>, AllocError>
    ensures grows { OnOk result (Grows sets.old sets.new) }
    ensures value { IfOk result (λ s. (f : Names → Names) → Stands f sets.new → (again : Expander)
        → work.taken_outcome f again s
        ≡ steps.after again (steps.step_by again (real f token) (reals f rest.entry)
        (spec.found_by lines.now progress (real f token) (reals f rest.entry) (steps.meant meaning.entry)))) }
    ensures nearer { IfOk result (λ s. work.IsTaken s progress.left rest.entry) }
{
    match meaning {
        Meaning::Ordinary => Ok(Taken::Settled(kept(progress, token, rest))),
        Meaning::Line => {
            let step = line_step(alloc, lines, progress, token, rest)?;
            Ok(Taken::Settled(step))
        }
        Meaning::File => {
            let step = file_step(alloc, progress, token, rest)?;
            Ok(Taken::Settled(step))
        }
        Meaning::Macro(def) => {
            let taken = macro_step(alloc, sets, progress, token, rest, def)?;
            Ok(taken)
        }
    }
}

fn at_first(alloc: Global, budget: u32) -> Progress
    ensures { result ≡ spec.at_first budget }
{
    Progress {
        left: budget,
        stopped: false,
        faults: Growing::new(alloc),
        spelled: Growing::new(alloc),
        macros: Growing::new(alloc),
        asked: None,
    }
}

fn told(alloc: Global, budget: u32, held: Held) -> Within
    requires { held.progress.left ≤ budget }
    ensures { result ≡ keeping.told budget held }
{
    let Held { progress, kept } = held;
    let Progress {
        left,
        stopped: _,
        faults,
        spelled,
        macros,
        asked,
    } = progress;
    let Kept { tokens, left_out } = kept;
    let used = budget - left;
    match asked {
        None => Within {
            expanded: Expanded {
                tokens: tokens.into_list(),
                used,
                faults: faults.into_list(),
                spelled: spelled.into_list(),
                macros: macros.into_list(),
                asked: None,
            },
            left_out,
        },
        Some(site) => Within {
            expanded: Expanded {
                tokens: OutTokens::from_vec(Vec::new(alloc)),
                used,
                faults: PpFaults::from_vec(Vec::new(alloc)),
                spelled: TokIds::from_vec(Vec::new(alloc)),
                macros: MacroOccs::from_vec(Vec::new(alloc)),
                asked: Some(site),
            },
            left_out: None,
        },
    }
}

/// What `expand` gives, with no more than its first `room` tokens, and the site of the first one that is left out. The
/// tokens that are left out take no memory but within an argument, which is expanded before it is put anywhere.
///
/// It fails for want of memory alone, and takes the time of the whole expansion.
pub fn expand_within(
    alloc: Global,
    tokens: &[OutToken],
    table: &MacroTable,
    lines: &[(TokId, u32)],
    budget: u32,
    room: usize,
) -> Result<Within, AllocError>
    ensures { IfOk result (λ w. w ≡ within room (spec.expanded (map.get table.now) lines.now budget tokens.now)) }
{
    let mut sets = Sets::new(alloc);
    let found = Lines::of(alloc, lines)?;
    let held = expansion(
        alloc,
        &mut sets,
        table,
        &found,
        room,
        at_first(alloc, budget),
        tokens,
    )?;
    Ok(told(alloc, budget, held))
}

/// The expansion of a list of tokens (ISO C11 6.10.3), with the macros of `table`, by Prosser's algorithm: each token
/// has a hide set, and a name in its own hide set is left. `lines` gives the lines of sites, from 1, for `__LINE__`.
/// `budget` is the number of replacements that may be made; `__LINE__` and `__FILE__` take one too.
///
/// Faults fall on sites: 202 (a wrong number of arguments) and 203 (an open argument list) leave the name as it is, 206
/// (`##` makes no token) leaves both operands, 207 (too many replacements) comes at most once and leaves everything
/// behind it, 211 warns of an absent variable argument.
///
/// It fails for want of memory alone. Its cost isn't linear in `tokens`: each replacement may bring more tokens, and a
/// call within arguments is read again at each depth. An open call isn't read, and `lines` are read once.
pub fn expand(
    alloc: Global,
    tokens: &[OutToken],
    table: &MacroTable,
    lines: &[(TokId, u32)],
    budget: u32,
) -> Result<Expanded, AllocError>
    ensures { IfOk result (λ e. e ≡ spec.expanded (map.get table.now) lines.now budget tokens.now) }
{
    let within = expand_within(alloc, tokens, table, lines, budget, usize::MAX)?;
    let Within {
        expanded,
        left_out: _,
    } = within;
    // Nothing was left out: for the proof, that a list has fewer elements than there was room for.
    let _count = expanded.tokens.as_slice().len();
    Ok(expanded)
}
