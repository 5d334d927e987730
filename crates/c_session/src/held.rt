// Units that were kept, by path, until it is known which of them stay.
ghost use Rattle.std.specs.Prelude.{◌≡◌, ◌++◌, ◌∷◌, [], false, ℕ, List, Some, None, bytes_eq, IfOk, OnOk, if◌then◌else◌};
ghost use Rattle.c_session.specs.Renewal.{HasMore, held_as, held_at, held_of, seen_before};
ghost use Rattle.c_session.specs.Units.{exported};
ghost use Rattle.unit_index.specs.Crossing.{sight};
ghost use Rattle.unit_index.specs.News.{AreNews};

use plain_mean::Grounds;
use std::alloc::{AllocError, Global};
use std::collections::BTreeMap;
use unit_index::{IndexedUnit, News, Pool};
use uri_paths::Path;

/// What a unit means, with an index, and on what that rests.
#[derive(Drop)]
pub(crate) struct HeldUnit {
    pub unit: IndexedUnit,
    pub grounds: Grounds,
}

/// What a unit was before.
#[derive(Drop)]
pub(crate) enum Earlier {
    /// What it is now.
    Same,
    /// This, at the same path.
    Other(IndexedUnit),
    /// None, or one that isn't known.
    Nothing,
}

/// What a unit means now, and what it was before.
#[derive(Drop)]
pub(crate) struct RenewedUnit {
    pub held: HeldUnit,
    pub earlier: Earlier,
}

/// Units that were kept and aren't taken yet, by path.
#[derive(Drop)]
pub(crate) struct Waiting {
    units: BTreeMap<Path, HeldUnit>,
    /// What they share, and units that are worked out with them.
    pub pool: Pool,
}

impl Waiting {
    /// These units, with their grounds one behind the other.
    pub fn of(
        alloc: Global,
        units: Vec<IndexedUnit>,
        grounds: Vec<Grounds>,
        pool: Pool,
    ) -> Result<Waiting, AllocError>
        ensures { IfOk result (λ w. (q : List ℕ) → held_at w q ≡ held_of units.items grounds.items q None) }
    {
        let mut waiting = Waiting {
            units: BTreeMap::new(alloc),
            pool,
        };
        let mut grounds = grounds.into_iter();
        'units: for unit in units {
            match grounds.next() {
                Some(resting) => waiting.put(unit, resting)?,
                None => return Ok(waiting),
            }
        }
        Ok(waiting)
    }

    fn put(&mut self, unit: IndexedUnit, grounds: Grounds) -> Result<(), AllocError>
        ensures { OnOk result ((q : List ℕ) → held_at self.new q ≡ (if bytes_eq q unit.path then Some (held_as unit grounds) else held_at self.old q)) }
    {
        let path = unit.path().share()?;
        self.units.insert(path, HeldUnit { unit, grounds })?;
        Ok(())
    }

    /// Takes what is kept of a path away.
    pub fn take(&mut self, path: &Path) -> Option<HeldUnit>
        ensures taken { result ≡ held_at self.old path.now }
        ensures others { (q : List ℕ) → bytes_eq q path.now ≡ false → held_at self.new q ≡ held_at self.old q }
    {
        self.units.remove(path)
    }

    /// What they share, where the units that still wait are let go.
    pub fn into_pool(self) -> Pool {
        self.pool
    }
}

/// Units, and on what each rests, one behind the other.
#[derive(Drop)]
pub(crate) struct Standing {
    pub units: Vec<IndexedUnit>,
    pub grounds: Vec<Grounds>,
    /// What these show otherwise than before, where each was there before.
    pub news: News,
    /// One of these wasn't there before, or isn't known from before.
    pub has_new: bool,
}

impl Standing {
    /// No unit. It takes no memory.
    pub fn new(alloc: Global) -> Standing
        ensures units { result.units.items ≡ [] }
        ensures grounds { result.grounds.items ≡ [] }
        ensures news { AreNews [] [] result.news }
    {
        Standing {
            units: Vec::new(alloc),
            grounds: Vec::new(alloc),
            news: News::new(alloc),
            has_new: false,
        }
    }

    fn note(&mut self, earlier: &Earlier, unit: &IndexedUnit) -> Result<(), AllocError>
        ensures units { OnOk result (self.new.units ≡ self.old.units) }
        ensures grounds { OnOk result (self.new.grounds ≡ self.old.grounds) }
        ensures seen { OnOk result (self.new.has_new ≡ false → HasMore self.old.has_new self.old.news (seen_before earlier.now unit.now) (sight (exported unit.now)) self.new.news) }
    {
        match earlier {
            Earlier::Same => {
                self.news.same()?;
                Ok(())
            }
            Earlier::Other(was) => {
                let before = was.exports();
                let now = unit.exports();
                self.news.changed(before, now)?;
                Ok(())
            }
            Earlier::Nothing => {
                self.has_new = true;
                Ok(())
            }
        }
    }

    pub fn push(&mut self, renewed: RenewedUnit) -> Result<(), AllocError>
        ensures units { OnOk result (self.new.units.items ≡ self.old.units.items ++ renewed.held.unit ∷ []) }
        ensures grounds { OnOk result (self.new.grounds.items ≡ self.old.grounds.items ++ renewed.held.grounds ∷ []) }
        ensures seen { OnOk result (self.new.has_new ≡ false → HasMore self.old.has_new self.old.news (seen_before renewed.earlier renewed.held.unit) (sight (exported renewed.held.unit)) self.new.news) }
    {
        let RenewedUnit { held, earlier } = renewed;
        let HeldUnit { unit, grounds } = held;
        self.note(&earlier, &unit)?;
        self.units.push(unit)?;
        self.grounds.push(grounds)?;
        Ok(())
    }
}
