// What each file shows, by what all units mean.
ghost use Rattle.std.specs.Prelude.{◌≡◌, ◌++◌, ℕ, List, length, IfOk, OnOk};
ghost use Rattle.plain_mean.specs.Gathered.{AreGathered};
ghost use Rattle.plain_mean.specs.Given.{text_in};
ghost use Rattle.plain_mean.specs.Lists.{shown_in};
ghost use Rattle.plain_mean.specs.Shown.{shown_by};
ghost use Rattle.plain_mean.specs.Within.{AreWithin};
ghost use Rattle.tok_data.specs.declared.faults.ShownFault.{ShownFault as Fault};
ghost use Rattle.c_session.specs.Units.{all_reads, crossed, cross_faults, own_faults};

use crate::cross::cross_faults;
use plain_mean::{Gathered, Lexings, ShownLists, shown_lists};
use std::alloc::{AllocError, Global};
use unit_index::{Crossings, IndexedUnit};

fn add_unit(gathered: &mut Gathered, unit: &IndexedUnit) -> Result<(), AllocError>
    ensures { OnOk result ((fs : List Fault) (rs : List (List ℕ)) → AreGathered fs rs gathered.old → AreGathered (fs ++ unit.now.meaning.faults) (rs ++ unit.now.reads) gathered.new) }
{
    gathered.add_faults(unit.faults())?;
    gathered.add_reads(unit.reads())?;
    Ok(())
}

fn add_units(gathered: &mut Gathered, units: &[IndexedUnit]) -> Result<(), AllocError>
    ensures { OnOk result ((fs : List Fault) (rs : List (List ℕ)) → AreGathered fs rs gathered.old → AreGathered (fs ++ own_faults units.now) (rs ++ all_reads units.now) gathered.new) }
{
    let mut rest = units;
    'units: while let Some((unit, behind)) = rest.split_first() {
        rest = behind;
        add_unit(gathered, unit)?;
    }
    Ok(())
}

fn gathered(
    alloc: Global,
    units: &[IndexedUnit],
    crossings: &[Crossings],
) -> Result<Gathered, AllocError>
    ensures { IfOk result (λ g. crossings.now ≡ crossed units.now → AreGathered (own_faults units.now ++ cross_faults units.now) (all_reads units.now) g) }
{
    let mut gathered = Gathered::new(alloc);
    add_units(&mut gathered, units)?;
    let across = cross_faults(alloc, units, crossings)?;
    gathered.add_faults(across.as_slice())?;
    Ok(gathered)
}

/// What each file shows: the faults of these units, which stand in order of path, and the warnings across them, which come without their tokens. It costs the
/// texts' paths, the faults, and the paths that the units read.
pub(crate) fn shown_of(
    alloc: Global,
    lexings: &mut Lexings<'_>,
    units: &[IndexedUnit],
    crossings: &[Crossings],
) -> Result<ShownLists, AllocError>
    ensures shown { IfOk result (λ lists. crossings.now ≡ crossed units.now → (path : List ℕ) → shown_in lists path ≡ shown_by lexings.old (own_faults units.now ++ cross_faults units.now) (all_reads units.now) path) }
    ensures within { IfOk result (λ lists. (path : List ℕ) → AreWithin (length (text_in lexings.old path)) (shown_in lists path)) }
    ensures same { lexings.new ≡ lexings.old }
{
    let gathered = gathered(alloc, units, crossings)?;
    let lists = shown_lists(alloc, lexings, &gathered)?;
    Ok(lists)
}
