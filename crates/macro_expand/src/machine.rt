// Macro expansion over a list of replacements that are under way, in place of a recursion.
ghost use Rattle.std.specs.Prelude.{◌≡◌, ℕ, List, ◌≤◌, ◌<◌, ◌+◌, ◌∷◌, length, map as list_map, IfOk, OnOk};
ghost use Rattle.tok_data.specs.declared.sources.TokId.{TokId as Site};
ghost use Rattle.macro_expand.specs.Tokens.{plain};
ghost use Rattle.macro_expand.specs.Ties.Codes.{Names};
ghost use Rattle.macro_expand.specs.Ties.Stands.{Stands, Grows};
ghost use Rattle.macro_expand.specs.Ties.Numbers.{reals};
ghost use Rattle.std.specs.FinMap as map;
ghost use Rattle.macro_expand.specs.Expansion as spec;
ghost use Rattle.macro_expand.specs.Ties.Steps as steps;
ghost use Rattle.macro_expand.specs.Ties.Machine as work;
ghost use Rattle.macro_expand.specs.Ties.Keeping as keeping;
ghost use Rattle.macro_expand.specs.Substitution.{Expander};

use crate::advancing::{Advance, mentions, read_list};
use crate::arguments::ArgumentList;
use crate::building::Building;
use crate::expanding::{Step, Taken, take_step};
use crate::finding::{Meaning, meaning_of};
use crate::hide::HideSet;
use crate::keeping::{Held, Kept};
use crate::lines::Lines;
use crate::look::Look;
use crate::rest::Rest;
use crate::sets::Sets;
use crate::skimming::skim;
use crate::splicing::spliced;
use crate::types::{Marked, MarkedList, Progress};
use macro_table::{MacroDef, MacroTable};
use std::alloc::{AllocError, Global};
use std::collections::VecDeque;
use tok_data::OutToken;

// A list in its expansion: what was done so far, what is expanded and what is left.
#[derive(Drop)]
pub(crate) struct Walked<'a> {
    pub(crate) progress: Progress,
    pub(crate) done: MarkedList,
    pub(crate) rest: Rest<'a>,
}

// A name that is replaced: its hide set from then on, its definition and arguments, and what of its list stands before
// it, expanded, and behind it.
#[derive(Drop)]
pub(crate) struct Call<'a> {
    token: Marked,
    names: HideSet,
    def: &'a MacroDef,
    args: ArgumentList,
    done: MarkedList,
    rest: Rest<'a>,
}

// A replacement that waits for the expansion of an argument: what is built of it, the white space before the argument,
// and what is left of the replacement list, of which some tokens are read already.
#[derive(Drop)]
pub(crate) struct Frame<'a> {
    call: Call<'a>,
    tokens: MarkedList,
    before: bool,
    empty: bool,
    first: bool,
    space: bool,
    skip: usize,
    behind: &'a [OutToken],
}

// The list that is expanded, and the replacements that wait for it, the last first.
#[derive(Drop)]
pub(crate) struct Machine<'a> {
    pub(crate) level: Walked<'a>,
    frames: VecDeque<Frame<'a>>,
}

// Where a list stops: at its end or behind a token that another was put for, or at a name that is replaced.
#[derive(Drop)]
pub(crate) enum Stop<'a> {
    Level(Walked<'a>),
    Called(Progress, Call<'a>),
}

// Goes on to the next name that is replaced.
fn walk<'a>(
    alloc: Global,
    sets: &mut Sets,
    table: &'a MacroTable,
    lines: &Lines<'_>,
    walked: Walked<'a>,
) -> Result<Stop<'a>, AllocError>
    ensures grows { OnOk result (Grows sets.old sets.new) }
    ensures value { IfOk result (λ s. (f : Names → Names) → Stands f sets.new
        → work.stop_outcome f (spec.expansion (map.get table.now) lines.now) s
        ≡ steps.whole f (map.get table.now) lines.now walked.entry) }
    ensures ended { IfOk result (λ s. work.IsStop s walked.entry.progress.left) }
{
    let Walked {
        progress,
        done,
        rest,
    } = walked;
    let mut progress = progress;
    let mut rest = rest;
    let mut done = done.into_vec();
    'tokens: while let Some(token) = rest.pop_front()? {
        let meaning = meaning_of(alloc, sets, table, progress.stopped, &Look::of(&token))?;
        if let Meaning::Ordinary = meaning {
            done.push(token)?;
            continue;
        }
        let taken = take_step(alloc, sets, lines, meaning, progress, token, rest)?;
        match taken {
            Taken::Settled(step) => {
                let Step {
                    progress: after,
                    kept,
                    rest: behind,
                } = step;
                let Some(token) = kept else {
                    return Ok(Stop::Level(Walked {
                        progress: after,
                        done: MarkedList::from_vec(done),
                        rest: behind,
                    }));
                };
                progress = after;
                rest = behind;
                done.push(token)?;
            }
            Taken::Called(after, token, def, args, names, behind) => {
                let done = MarkedList::from_vec(done);
                return Ok(Stop::Called(
                    after,
                    Call {
                        token,
                        names,
                        def,
                        args,
                        done,
                        rest: behind,
                    },
                ));
            }
        }
    }
    Ok(Stop::Level(Walked {
        progress,
        done: MarkedList::from_vec(done),
        rest,
    }))
}

// A call without its arguments where none is needed for what is left of the replacement list.
fn relieved<'a>(alloc: Global, call: Call<'a>, behind: &[OutToken]) -> Call<'a>
    ensures same { result ≡ work.with_args call.entry result.args }
    ensures enough { work.AreEnough call.entry result.args behind.now }
{
    if mentions(call.def, call.args.as_slice(), behind) {
        return call;
    }
    let Call {
        token,
        names,
        def,
        args: _,
        done,
        rest,
    } = call;
    Call {
        token,
        names,
        def,
        args: ArgumentList::new(alloc),
        done,
        rest,
    }
}

// A replacement waits for an argument.
fn wait<'a>(
    alloc: Global,
    call: Call<'a>,
    built: Building,
    space: bool,
    argument: MarkedList,
    skip: usize,
    behind: &'a [OutToken],
    frames: VecDeque<Frame<'a>>,
) -> Result<Machine<'a>, AllocError>
    ensures value { IfOk result (λ m. (f : Names → Names) (again : Expander) → work.outcome f again m
        ≡ work.resume f again frames.entry.items
        (work.ended f again call.entry (work.paused f again call.entry built space argument skip behind.now))) }
    ensures same { IfOk result (λ m. m.level.progress.left ≡ built.progress.left) }
    ensures waiting { IfOk result (λ m. work.waiting m.frames.items
        ≡ (length behind.now + 1) + work.waiting frames.entry.items) }
{
    let mut frames = frames;
    let Building {
        progress,
        tokens,
        space: before,
        empty,
        first,
    } = built;
    frames.push_front(Frame {
        call,
        tokens,
        before,
        empty,
        first,
        space,
        skip,
        behind,
    })?;
    let rest = Rest::from_list(argument);
    let level = Walked {
        progress,
        done: MarkedList::new(alloc),
        rest,
    };
    Ok(Machine { level, frames })
}

// A replacement list is built, or waits for an argument.
fn settle<'a>(
    alloc: Global,
    sets: &mut Sets,
    advance: Advance<'a>,
    call: Call<'a>,
    frames: VecDeque<Frame<'a>>,
) -> Result<Machine<'a>, AllocError>
    ensures grows { OnOk result (Grows sets.old sets.new) }
    ensures value { IfOk result (λ m. (f : Names → Names) → Stands f sets.new → (again : Expander)
        → work.outcome f again m
        ≡ work.resume f again frames.entry.items
        (work.ended f again call.entry (work.advanced f again call.entry advance.entry))) }
    ensures same { IfOk result (λ m. m.level.progress.left ≡ work.advance_left advance.entry) }
    ensures waiting { IfOk result (λ m. work.waiting m.frames.items
        ≡ work.advance_waiting advance.entry + work.waiting frames.entry.items) }
{
    match advance {
        Advance::Done(built) => {
            let Call {
                token,
                names,
                def: _,
                args: _,
                done,
                rest,
            } = call;
            let Building {
                progress,
                tokens,
                space,
                empty: _,
                first: _,
            } = built;
            let rest = spliced(alloc, sets, &token, &names, tokens, space, rest)?;
            Ok(Machine {
                level: Walked {
                    progress,
                    done,
                    rest,
                },
                frames,
            })
        }
        Advance::Paused(built, space, argument, skip, behind) => {
            let call = relieved(alloc, call, behind);
            let machine = wait(alloc, call, built, space, argument, skip, behind, frames)?;
            Ok(machine)
        }
    }
}

// A name's replacement begins.
fn begin<'a>(
    alloc: Global,
    sets: &mut Sets,
    progress: Progress,
    call: Call<'a>,
    frames: VecDeque<Frame<'a>>,
) -> Result<Machine<'a>, AllocError>
    ensures grows { OnOk result (Grows sets.old sets.new) }
    ensures value { IfOk result (λ m. (f : Names → Names) → Stands f sets.new → (again : Expander)
        → work.outcome f again m
        ≡ work.resume f again frames.entry.items
        (work.ended f again call.entry (work.built f again progress call.entry))) }
    ensures same { IfOk result (λ m. m.level.progress.left ≡ progress.left) }
{
    let def = call.def;
    let begun = Building::begun(alloc, progress, call.token.token.space_before);
    let advance = read_list(
        alloc,
        sets,
        def,
        call.args.as_slice(),
        &call.token.token.site,
        begun,
        0,
        def.body.as_slice(),
    )?;
    let settled = settle(alloc, sets, advance, call, frames)?;
    Ok(settled)
}

// An argument is expanded, and its replacement goes on.
fn goes_on<'a>(
    alloc: Global,
    sets: &mut Sets,
    progress: Progress,
    done: MarkedList,
    frame: Frame<'a>,
    frames: VecDeque<Frame<'a>>,
) -> Result<Machine<'a>, AllocError>
    ensures grows { OnOk result (Grows sets.old sets.new) }
    ensures value { IfOk result (λ m. (f : Names → Names) → Stands f sets.new → (again : Expander)
        → work.outcome f again m
        ≡ work.resume f again (frame.entry ∷ frames.entry.items)
        (record { progress = progress; tokens = reals f done })) }
    ensures same { IfOk result (λ m. m.level.progress.left ≡ progress.left) }
    ensures fewer { IfOk result (λ m. work.waiting m.frames.items < work.waiting (frame.entry ∷ frames.entry.items)) }
{
    let Frame {
        call,
        tokens,
        before,
        empty,
        first,
        space,
        skip,
        behind,
    } = frame;
    let mut built = Building {
        progress,
        tokens,
        space: before,
        empty,
        first,
    };
    built.puts(space, done)?;
    let advance = read_list(
        alloc,
        sets,
        call.def,
        call.args.as_slice(),
        &call.token.token.site,
        built,
        skip,
        behind,
    )?;
    let settled = settle(alloc, sets, advance, call, frames)?;
    Ok(settled)
}

// Goes on until a name is replaced, or all is expanded.
pub(crate) fn climb<'a>(
    alloc: Global,
    sets: &mut Sets,
    table: &'a MacroTable,
    lines: &Lines<'_>,
    machine: Machine<'a>,
) -> Result<Machine<'a>, AllocError>
    ensures grows { OnOk result (Grows sets.old sets.new) }
    ensures value { IfOk result (λ m. (f : Names → Names) → Stands f sets.new
        → work.outcome f (spec.expansion (map.get table.now) lines.now) m
        ≡ work.outcome f (spec.expansion (map.get table.now) lines.now) machine.entry) }
    ensures ended { IfOk result (λ m. work.IsClimbed m machine.entry.level.progress.left) }
    ensures fewer { IfOk result (λ m. m.level.progress.left ≤ machine.entry.level.progress.left) }
{
    let Machine { level, frames } = machine;
    let mut level = level;
    let mut frames = frames;
    'levels: loop {
        let stop = walk(alloc, sets, table, lines, level)?;
        match stop {
            Stop::Called(progress, call) => {
                let begun = begin(alloc, sets, progress, call, frames)?;
                return Ok(begun);
            }
            Stop::Level(walked) => {
                if !walked.rest.is_empty() {
                    return Ok(Machine {
                        level: walked,
                        frames,
                    });
                }
                let Some(frame) = frames.pop_front() else {
                    return Ok(Machine {
                        level: walked,
                        frames,
                    });
                };
                let Walked {
                    progress,
                    done,
                    rest: _,
                } = walked;
                let next = goes_on(alloc, sets, progress, done, frame, frames)?;
                let Machine {
                    level: inner,
                    frames: waiting,
                } = next;
                level = inner;
                frames = waiting;
            }
        }
    }
}

// What is expanded leaves a machine in which nothing waits, and so do the tokens behind it that no macro takes.
fn deliver<'a>(
    alloc: Global,
    sets: &mut Sets,
    table: &MacroTable,
    room: usize,
    machine: Machine<'a>,
    kept: &mut Kept,
) -> Result<Machine<'a>, AllocError>
    ensures grows { OnOk result (Grows sets.old sets.new) }
    ensures value { IfOk result (λ m. (f : Names → Names) → Stands f sets.new → (lines : List (Site × ℕ))
        → keeping.held room kept.new (work.outcome f (spec.expansion (map.get table.now) lines) m)
        ≡ keeping.held room kept.old (work.outcome f (spec.expansion (map.get table.now) lines) machine.entry)) }
    ensures progress { IfOk result (λ m. m.level.progress ≡ machine.entry.level.progress) }
    ensures shorter { IfOk result (λ m. length m.level.rest ≤ length machine.entry.level.rest) }
    ensures frames { IfOk result (λ m. m.frames.items ≡ machine.entry.frames.items) }
{
    let Machine { level, frames } = machine;
    if !frames.is_empty() {
        return Ok(Machine { level, frames });
    }
    let Walked {
        progress,
        done,
        rest,
    } = level;
    kept.keep(room, done)?;
    let mut rest = rest;
    skim(alloc, sets, table, room, progress.stopped, &mut rest, kept)?;
    let level = Walked {
        progress,
        done: MarkedList::new(alloc),
        rest,
    };
    Ok(Machine { level, frames })
}

// The expansion of a list of tokens with their hide sets, of which no more than so many are kept.
pub(crate) fn expansion<'a>(
    alloc: Global,
    sets: &mut Sets,
    table: &'a MacroTable,
    lines: &Lines<'_>,
    room: usize,
    progress: Progress,
    tokens: &'a [OutToken],
) -> Result<Held, AllocError>
    ensures grows { OnOk result (Grows sets.old sets.new) }
    ensures value { IfOk result (λ h. (f : Names → Names) → Stands f sets.new
        → h ≡ keeping.held room keeping.nothing_kept
        (spec.expansion (map.get table.now) lines.now progress (reals f (list_map plain tokens.now)))) }
    ensures fewer { IfOk result (λ h. h.progress.left ≤ progress.left) }
{
    // (most tokens are no macros)
    let mut kept = Kept::nothing(alloc, tokens.len().min(room))?;
    let rest = Rest::from_slice(alloc, tokens);
    let level = Walked {
        progress,
        done: MarkedList::new(alloc),
        rest,
    };
    let mut machine = Machine {
        level,
        frames: VecDeque::new(alloc),
    };
    'names: loop {
        let delivered = deliver(alloc, sets, table, room, machine, &mut kept)?;
        if delivered.level.rest.is_empty() && delivered.frames.is_empty() {
            let Machine { level, frames: _ } = delivered;
            let Walked {
                progress,
                done,
                rest: _,
            } = level;
            kept.keep(room, done)?;
            return Ok(Held { progress, kept });
        }
        let next = climb(alloc, sets, table, lines, delivered)?;
        machine = next;
    }
}
