// The warnings across units, and the types that they compare (ISO C11 6.2.7, 6.9).
use crate::exported::Exporter;
use scope_tables::Exports;
use shared_text::Name;
use std::collections::HashMap;
use std::marker::Model;
use tok_data::ShownFault;
use uri_paths::Path;

mod crossings;
mod faults;
mod news;
mod placing;
mod renewing;
mod sights;

pub use news::News;
pub use placing::faults_placed;
pub use renewing::crossings_after;

/// What a unit shows to the others, lent with its path.
#[derive(Drop)]
pub struct UnitExports<'a> {
    pub path: &'a Path,
    pub exports: &'a Exports,
}

impl<'a> Model for UnitExports<'a> {
    ghost use Rattle.std.specs.Coded.{codes};
    ghost use Rattle.type_data.specs.contracts.types.CType as types;
    ghost use Rattle.unit_index.specs.Exported.{Shown};

    ghost Value = { Shown };

    ghost coded = { Prim.hlevel (codes, types.the_row.coded) };

    ghost view = { λ u. record { path = u.path.now; exports = u.exports.now } };
}

/// What units show to one another, by name. Contracts see the units.
#[derive(Drop)]
pub struct Index<'a> {
    units: &'a [UnitExports<'a>],
    declared: HashMap<Name, Exporter<'a>>,
    defined: HashMap<Name, Exporter<'a>>,
}

impl<'a> Model for Index<'a> {
    ghost use Rattle.std.specs.Prelude.{List};
    ghost use Rattle.std.specs.Coded.{codes};
    ghost use Rattle.type_data.specs.contracts.types.CType as types;
    ghost use Rattle.unit_index.specs.Exported.{Shown};

    ghost Value = { List Shown };

    ghost coded = { Prim.hlevel (codes, types.the_row.coded) };

    ghost use Rattle.unit_index.specs.Exported.{at, IsKept};

    ghost view = { λ i. i.units.now };

    ghost invariant = { λ i. IsKept i.units.now (at i.declared) (at i.defined) };
}

/// A warning of a unit on what it shows to the others.
#[derive(Debug, PartialEq, Eq, Hash, Drop)]
pub struct CrossFault {
    pub unit: Path,
    pub fault: ShownFault,
}
