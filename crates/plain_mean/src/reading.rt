// How units are read, with the entries of the database at hand.
ghost use Rattle.std.specs.Prelude.{◌≡◌, option_map, unwrap_or, [], IfOk, IfSome};
ghost use Rattle.project_conf.specs.Defines.{AreUsable};
ghost use Rattle.project_conf.specs.Entries.{entry_of, unit_conf};
ghost use Rattle.plain_mean.specs.Confs.{IsUsable};
ghost use Rattle.plain_mean.specs.Shown.{is_unit_of};

use doc_texts::Docs;
use project_conf::{Conf, Entries, UnitConf, is_unit, with_entry};
use std::alloc::{AllocError, Global};
use std::marker::Model;
use uri_paths::Path;

/// How units are read, with the first entry of each file at hand. Contracts see how they are read.
#[derive(Drop)]
pub struct Reading<'a> {
    conf: &'a Conf,
    entries: Option<Entries<'a>>,
}

impl<'a> Model for Reading<'a> {
    ghost use Rattle.std.specs.Prelude.{◌≡◌};
    ghost use Rattle.project_conf.specs.declared.conf.Conf.{Conf as Read};
    ghost use Rattle.plain_mean.specs.Confs.{IsUsable};

    ghost Value = { Read };

    ghost view = { λ r. r.conf.now };

    ghost invariant = { λ r. (r.entries ≡ r.conf.now.database) × IsUsable r.conf.now };
}

impl<'a> Reading<'a> {
    /// How units are read. The definitions of the words have together at most 131,072 bytes of names and texts, those of an entry 2^25,
    /// and their names are identifiers. It costs the database.
    pub fn of(alloc: Global, conf: &'a Conf) -> Result<Reading<'a>, AllocError>
        requires { IsUsable conf.now }
        ensures { IfOk result (λ reading. reading ≡ conf.now) }
    {
        match &conf.database {
            Some(units) => {
                let entries = Entries::of(alloc, units.as_slice())?;
                Ok(Reading {
                    conf,
                    entries: Some(entries),
                })
            }
            None => Ok(Reading {
                conf,
                entries: None,
            }),
        }
    }

    // The first entry of a file.
    #[tactic(auto, using(crate::proofs::Usable::entry_usable, crate::proofs::Usable::none_found))]
    fn entry(&self, file: &Path) -> Option<&UnitConf>
        ensures found { option_map (λ unit. unit.now) result ≡ entry_of file.now (unwrap_or self.now.database []) }
        ensures usable { IfSome result (λ unit. AreUsable 33554432 unit.now.defines) }
    {
        match &self.entries {
            Some(entries) => entries.get(file),
            None => None,
        }
    }

    /// How a unit is read.
    pub(crate) fn unit_conf(&self, alloc: Global, unit: &Path) -> Result<UnitConf, AllocError>
        ensures conf { IfOk result (λ conf. conf ≡ unit_conf self.now unit.now) }
        ensures usable { IfOk result (λ conf. AreUsable 268435456 conf.defines) }
    {
        let conf = with_entry(alloc, self.conf, unit, self.entry(unit))?;
        Ok(conf)
    }

    /// Whether the text at a path is a unit.
    pub(crate) fn is_unit(&self, docs: &Docs, path: &Path) -> bool
        ensures { result ≡ is_unit_of docs.now self.now path.now }
    {
        is_unit(self.entries.as_ref(), docs.version(path).is_some(), path)
    }
}
