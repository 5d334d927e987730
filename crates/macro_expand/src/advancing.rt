// A replacement list up to a parameter whose argument is to be expanded (ISO C11 6.10.3.1), or to its end.
ghost use Rattle.std.specs.Prelude.{◌≡◌, ◌<◌, length, not, false, ◌&&◌, IfOk, OnOk};
ghost use Rattle.macro_expand.specs.Ties.Codes.{Names};
ghost use Rattle.macro_expand.specs.Ties.Stands.{Stands, Grows};
ghost use Rattle.macro_expand.specs.Ties.Numbers.{real_args, real_building, real_operand, real_part};
ghost use Rattle.macro_expand.specs.Ties.Machine as spec;
ghost use Rattle.macro_expand.specs.Ties.Building as build;
ghost use Rattle.macro_expand.specs.Substitution.{Expander};

use crate::arguments::arg_of;
use crate::building::{Building, Part};
use crate::operands::{Operand, is_itself, read_operand};
use crate::sets::Sets;
use crate::tokens::{begins_paste, is_paste};
use crate::types::{Marked, MarkedList};
use macro_table::MacroDef;
use std::alloc::{AllocError, Global};
use tok_data::{OutToken, TokId};

// What comes of one part of a replacement list, and how many tokens of the list it has besides its first: it is at the
// end of what is built, or an argument is to be expanded and put there with this white space.
#[derive(Drop)]
pub(crate) enum Next {
    Built(Building, usize),
    Wanted(Building, bool, MarkedList, usize),
}

// What comes of a replacement list: all of it is built, or an argument is to be expanded and put at the end of what is
// built with this white space; then so many tokens of what is left are read already.
#[derive(Drop)]
pub(crate) enum Advance<'a> {
    Done(Building),
    Paused(Building, bool, MarkedList, usize, &'a [OutToken]),
}

// An operand is to be expanded: a parameter that `##` doesn't take as it is.
fn is_wanted(given: bool, raw: bool) -> bool
    ensures { result ≡ (given && not raw) }
{
    given && !raw
}

// An operand that isn't joined to the one before it.
fn puts_operand(building: Building, operand: Operand, raw: bool) -> Result<Next, AllocError>
    ensures value { IfOk result (λ n. (f : Names → Names) (again : Expander)
        → spec.part_of f again n ≡ spec.operand_part again (real_building f building) (real_operand f operand) raw) }
    ensures same { IfOk result (λ n. spec.next_left n ≡ building.progress.left) }
{
    let Operand {
        given,
        tokens,
        spelled,
        space,
        more,
    } = operand;
    let space = building.space_of(space);
    if is_wanted(given, raw) {
        return Ok(Next::Wanted(building, space, tokens, more));
    }
    let mut building = building;
    building.notes(spelled)?;
    building.puts(space, tokens)?;
    Ok(Next::Built(building, more))
}

// `##` with its right operand.
fn pastes(
    alloc: Global,
    sets: &mut Sets,
    def: &MacroDef,
    args: &[MarkedList],
    site: &TokId,
    building: Building,
    token: &OutToken,
    behind: &[OutToken],
) -> Result<Part, AllocError>
    ensures grows { OnOk result (Grows sets.old sets.new) }
    ensures value { IfOk result (λ p. (f : Names → Names) → Stands f sets.new
        → real_part f p
        ≡ build.pastes def.now (real_args f args.now) site.now (real_building f building) token.now behind.now) }
    ensures same { IfOk result (λ p. p.built.progress.left ≡ building.progress.left) }
{
    let mut building = building;
    let Some((right, more)) = behind.split_first() else {
        let space = building.space_of(token.space_before);
        let copy = token.copy()?;
        let one = MarkedList::one(alloc, Marked::plain(copy))?;
        building.puts(space, one)?;
        return Ok(Part {
            built: building,
            more: 0,
        });
    };
    let operand = read_operand(alloc, def, args, right, more)?;
    let more = operand.more + 1;
    building.joins_operand(alloc, sets, site, operand)?;
    Ok(Part {
        built: building,
        more,
    })
}

// What stands at the front of a replacement list.
#[tactic(auto, unfolding(crate::specs::Ties::Building::part))]
fn next_part(
    alloc: Global,
    sets: &mut Sets,
    def: &MacroDef,
    args: &[MarkedList],
    site: &TokId,
    building: Building,
    token: &OutToken,
    behind: &[OutToken],
) -> Result<Next, AllocError>
    ensures grows { OnOk result (Grows sets.old sets.new) }
    ensures value { IfOk result (λ n. (f : Names → Names) → Stands f sets.new → (again : Expander)
        → spec.part_of f again n
        ≡ build.part again def.now (real_args f args.now) site.now (real_building f building) token.now behind.now) }
    ensures same { IfOk result (λ n. spec.next_left n ≡ building.progress.left) }
{
    if is_paste(token) {
        let part = pastes(alloc, sets, def, args, site, building, token, behind)?;
        let Part { built, more } = part;
        return Ok(Next::Built(built, more));
    }
    if is_itself(def, args, token, behind) {
        let mut built = building;
        let space = built.space_of(token.space_before);
        let copy = token.copy()?;
        built.puts_token(space, Marked::plain(copy))?;
        return Ok(Next::Built(built, 0));
    }
    let operand = read_operand(alloc, def, args, token, behind)?;
    let next = puts_operand(building, operand, begins_paste(behind))?;
    Ok(next)
}

// A replacement list of which some tokens are read already.
pub(crate) fn read_list<'a>(
    alloc: Global,
    sets: &mut Sets,
    def: &MacroDef,
    args: &[MarkedList],
    site: &TokId,
    begun: Building,
    read: usize,
    list: &'a [OutToken],
) -> Result<Advance<'a>, AllocError>
    ensures grows { OnOk result (Grows sets.old sets.new) }
    ensures value { IfOk result (λ a. (f : Names → Names) → Stands f sets.new → (again : Expander)
        → spec.building_of f again def.now (real_args f args.now) site.now a
        ≡ build.substituted again def.now (real_args f args.now) site.now read (real_building f begun) list.now) }
    ensures same { IfOk result (λ a. spec.advance_left a ≡ begun.progress.left) }
    ensures shorter { IfOk result (λ a. spec.IsShorter a (length list.now)) }
{
    let mut rest = list;
    let mut building = begun;
    let mut skip = read;
    'parts: while let Some((token, behind)) = rest.split_first() {
        rest = behind;
        if 0 < skip {
            skip -= 1;
            continue;
        }
        let next = next_part(alloc, sets, def, args, site, building, token, behind)?;
        match next {
            Next::Built(built, more) => {
                building = built;
                skip = more;
            }
            Next::Wanted(built, space, argument, more) => {
                return Ok(Advance::Paused(built, space, argument, more, behind));
            }
        }
    }
    Ok(Advance::Done(building))
}

// A parameter stands in the rest of a replacement list.
pub(crate) fn mentions(def: &MacroDef, args: &[MarkedList], list: &[OutToken]) -> bool
    ensures { result ≡ false → spec.Unmentioned def.now args.now list.now }
{
    let mut rest = list;
    'tokens: loop {
        let Some((token, behind)) = rest.split_first() else {
            return false;
        };
        let None = arg_of(def, args, token) else {
            return true;
        };
        rest = behind;
    }
}
