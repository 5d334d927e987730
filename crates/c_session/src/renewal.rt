// Which of the units that were kept stay, and which are worked out again.
ghost use Rattle.std.specs.Prelude.{◌≡◌, ◌+◌, false, ℕ, List, Some, length, map, bytes_eq, IfOk, OnOk, if◌then◌else◌};
ghost use Rattle.std.specs.List.{filter};
ghost use Rattle.plain_mean.specs.Renewed.{IsGrounds};
ghost use Rattle.c_session.specs.Renewal.{AreApart, HaveNews, RestOn, RestsOn, due_at, held_at, is_due, seen_before, sight_of, unit_at, unit_by};
ghost use Rattle.c_session.specs.Units.{exported, known_as, known_unit};
ghost use Rattle.unit_index.specs.Crossing.{Sight, sight};

use crate::held::{Earlier, HeldUnit, RenewedUnit, Standing, Waiting};
use plain_mean::{Changes, Lexings, Meant, Reading, UnitMeaning, mean};
use std::alloc::{AllocError, Global};
use std::sync::ledger::Ledger;
use steps::Steps;
use unit_index::{IndexedUnit, Pool};
use uri_paths::Path;

fn held_as(
    alloc: Global,
    path: &Path,
    meant: Meant,
    pool: &mut Pool,
) -> Result<HeldUnit, AllocError>
    ensures unit { IfOk result (λ h. h.unit ≡ known_as path.now meant.meaning) }
    ensures grounds { IfOk result (λ h. h.grounds ≡ meant.grounds) }
{
    let Ok(path) = path.share() else {
        drop(meant);
        return Err(AllocError);
    };
    let Meant { meaning, grounds } = meant;
    let UnitMeaning { meaning, reads } = meaning;
    let unit = IndexedUnit::of(alloc, path, reads, meaning, pool)?;
    Ok(HeldUnit { unit, grounds })
}

// Works a unit out.
fn worked<L: Ledger>(
    alloc: Global,
    pool: &mut Pool,
    lexings: &mut Lexings<'_>,
    reading: &Reading<'_>,
    path: &Path,
    steps: &mut Steps<L>,
) -> Result<HeldUnit, AllocError>
    ensures unit { IfOk result (λ h. h.unit ≡ known_unit lexings.old reading.now path.now) }
    ensures grounds { IfOk result (λ h. IsGrounds lexings.old reading.now path.now h.grounds) }
    ensures same { lexings.new ≡ lexings.old }
    ensures steps { steps.new ≡ steps.old + 1 }
{
    let meant = mean(alloc, lexings, reading, path, steps)?;
    let held = held_as(alloc, path, meant, pool)?;
    Ok(held)
}

fn same_path(a: &IndexedUnit, b: &IndexedUnit) -> bool
    ensures { result ≡ bytes_eq a.now.path b.now.path }
{
    a.path().as_str() == b.path().as_str()
}

// What a unit was before, where it stands at the same path.
fn earlier_as(before: IndexedUnit, now: &IndexedUnit) -> Earlier
    ensures { (s : Sight) → seen_before result now.now ≡ Some s → s ≡ sight (exported before) }
{
    let at = same_path(now, &before);
    if at {
        return Earlier::Other(before);
    }
    Earlier::Nothing
}

// A unit that was kept: it stays, or is worked out again where its grounds are gone.
fn kept_or_worked<L: Ledger>(
    alloc: Global,
    held: HeldUnit,
    pool: &mut Pool,
    changes: &mut Changes<'_>,
    lexings: &mut Lexings<'_>,
    reading: &Reading<'_>,
    path: &Path,
    steps: &mut Steps<L>,
) -> Result<RenewedUnit, AllocError>
    requires { lexings.old ≡ changes.old.now }
    ensures unit { IfOk result (λ r. r.held.unit ≡ unit_by (Some held) changes.old.prior changes.old.now reading.now path.now) }
    ensures grounds { IfOk result (λ r. RestsOn (Some held) changes.old.prior changes.old.now reading.now path.now r.held.grounds) }
    ensures seen { IfOk result (λ r. (s : Sight) → seen_before r.earlier r.held.unit ≡ Some s → sight_of (Some held) ≡ Some s) }
    ensures changes { changes.new ≡ changes.old }
    ensures lexings { lexings.new ≡ lexings.old }
    ensures steps { OnOk result (steps.new ≡ steps.old + (if is_due (Some held) changes.old.prior changes.old.now reading.now path.now then 1 else 0)) }
{
    let gone = changes.are_gone(lexings, reading, path, &held.grounds)?;
    if gone {
        let again = worked(alloc, pool, lexings, reading, path, steps)?;
        let HeldUnit { unit, grounds: _ } = held;
        let earlier = earlier_as(unit, &again.unit);
        return Ok(RenewedUnit {
            held: again,
            earlier,
        });
    }
    Ok(RenewedUnit {
        held,
        earlier: Earlier::Same,
    })
}

// What a unit means now.
fn unit_now<L: Ledger>(
    alloc: Global,
    waiting: &mut Waiting,
    changes: &mut Changes<'_>,
    lexings: &mut Lexings<'_>,
    reading: &Reading<'_>,
    path: &Path,
    steps: &mut Steps<L>,
) -> Result<RenewedUnit, AllocError>
    requires { lexings.old ≡ changes.old.now }
    ensures unit { IfOk result (λ r. r.held.unit ≡ unit_by (held_at waiting.old path.now) changes.old.prior changes.old.now reading.now path.now) }
    ensures grounds { IfOk result (λ r. RestsOn (held_at waiting.old path.now) changes.old.prior changes.old.now reading.now path.now r.held.grounds) }
    ensures seen { IfOk result (λ r. (s : Sight) → seen_before r.earlier r.held.unit ≡ Some s → sight_of (held_at waiting.old path.now) ≡ Some s) }
    ensures others { (q : List ℕ) → bytes_eq q path.now ≡ false → held_at waiting.new q ≡ held_at waiting.old q }
    ensures changes { changes.new ≡ changes.old }
    ensures lexings { lexings.new ≡ lexings.old }
    ensures steps { OnOk result (steps.new ≡ steps.old + (if is_due (held_at waiting.old path.now) changes.old.prior changes.old.now reading.now path.now then 1 else 0)) }
{
    let kept = waiting.take(path);
    match kept {
        Some(held) => {
            let pool = &mut waiting.pool;
            let stays = kept_or_worked(alloc, held, pool, changes, lexings, reading, path, steps)?;
            Ok(stays)
        }
        None => {
            let pool = &mut waiting.pool;
            let first = worked(alloc, pool, lexings, reading, path, steps)?;
            Ok(RenewedUnit {
                held: first,
                earlier: Earlier::Nothing,
            })
        }
    }
}

/// What each of some units means now, in their order: those that wait stay where their grounds hold, and all others are worked out, which is one step each. No path
/// comes twice.
pub(crate) fn units_now<L: Ledger>(
    alloc: Global,
    waiting: &mut Waiting,
    changes: &mut Changes<'_>,
    lexings: &mut Lexings<'_>,
    reading: &Reading<'_>,
    paths: &[Path],
    steps: &mut Steps<L>,
) -> Result<Standing, AllocError>
    requires texts { lexings.old ≡ changes.old.now }
    requires apart { AreApart paths.now }
    ensures units { IfOk result (λ s. s.units.items ≡ map (unit_at (held_at waiting.old) changes.old.prior changes.old.now reading.now) paths.now) }
    ensures grounds { IfOk result (λ s. RestOn (held_at waiting.old) changes.old.prior changes.old.now reading.now paths.now s.grounds.items) }
    ensures seen { IfOk result (λ s. s.has_new ≡ false → HaveNews (held_at waiting.old) paths.now s.units.items s.news) }
    ensures lexings { lexings.new ≡ lexings.old }
    ensures steps { OnOk result (steps.new ≡ steps.old + length (filter (due_at (held_at waiting.old) changes.old.prior changes.old.now reading.now) paths.now)) }
{
    let mut standing = Standing::new(alloc);
    let mut rest = paths;
    'paths: while let Some((path, behind)) = rest.split_first() {
        rest = behind;
        let renewed = unit_now(alloc, waiting, changes, lexings, reading, path, steps)?;
        standing.push(renewed)?;
    }
    Ok(standing)
}
