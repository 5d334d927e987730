// How the units of a project are read.
use crate::options::Defines;
use shared_list::Listing;
use uri_paths::Path;

/// Folders to search, in order.
pub type IncludePaths = Listing<Path>;

/// How one unit is read.
#[derive(Debug, Drop)]
pub struct UnitConf {
    /// The unit's own text.
    pub file: Path,
    /// The folders that are searched for it.
    pub includes: IncludePaths,
    /// The definitions that it begins with.
    pub defines: Defines,
}

/// The units of a database, in its order.
pub type UnitConfs = Listing<UnitConf>;

/// How a project's units are read.
#[derive(Debug, Drop)]
pub struct Conf {
    /// The root, where there is one.
    pub root: Option<Path>,
    /// The folders that the words give to every unit.
    pub includes: IncludePaths,
    /// The definitions that the words give to every unit.
    pub defines: Defines,
    /// The database, where the root has one that is read.
    pub database: Option<UnitConfs>,
}
