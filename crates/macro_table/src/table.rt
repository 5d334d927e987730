// The table of macros.
ghost use Rattle.std.specs.Prelude.{◌≡◌, IfOk, OnErr, option_copied};
ghost use Rattle.std.specs.FinMap as map;
ghost use Rattle.macro_table.specs.Defining.{IsOutcome, table_after};

use crate::definition::MacroDef;
use crate::same::same;
use std::alloc::{AllocError, Global};
use std::collections::HashMap;
use std::marker::Model;
use tok_data::TokId;

/// What a definition does to the table.
#[derive(Debug, PartialEq, Eq, Drop)]
pub enum Defined {
    /// The name had no definition; now it has this one.
    Fresh,
    /// The name has the same definition already, which stays (ISO C11 6.10.3p2).
    Same,
    /// The name has another definition, which stays; this is the name's token there.
    Clash(TokId),
}

/// The macros that are defined. Contracts see it as a finite map from names to definitions.
#[derive(Drop)]
pub struct MacroTable {
    macros: HashMap<String, MacroDef>,
    alloc: Global,
}

impl Model for MacroTable {
    ghost use Rattle.std.specs.Ordering.{nat_cmp};
    ghost use Rattle.std.specs.Cmp.Lexicographic.{slice_cmp};
    ghost use Rattle.std.specs.FinMap as map;
    ghost use Rattle.macro_table.specs.declared.definition.MacroDef.{MacroDef};

    ghost Value = { map.FinMap (slice_cmp nat_cmp) MacroDef };

    ghost use Rattle.std.specs.Coded.{coded_ℕ, coded_list};
    ghost use Rattle.macro_table.specs.contracts.definition.MacroDef as definition;

    ghost coded = { map.code (coded_list coded_ℕ) definition.the_row.coded };

    ghost use Rattle.macro_table.specs.Named.{named};

    ghost view = { λ t. map.from_entries (named t.macros.entries) };
}

impl MacroTable {
    /// The table without a macro.
    pub fn new(alloc: Global) -> MacroTable
        ensures { result ≡ map.empty }
    {
        MacroTable {
            macros: HashMap::new(alloc),
            alloc,
        }
    }

    /// The definition of a name; none where it has none.
    pub fn get(&self, name: &str) -> Option<&MacroDef>
        ensures { option_copied result ≡ map.get self.now name.now }
    {
        self.macros.get(name)
    }

    /// Removes the definition of a name (ISO C11 6.10.3.5p2), and answers whether it had one.
    pub fn undef(&mut self, name: &str) -> bool
        ensures removed { result ≡ map.contains_key self.old name.now }
        ensures table { self.new ≡ map.remove self.old name.now }
    {
        self.macros.remove(name).is_some()
    }

    /// Enters a definition, unless its name has one. Fails only for want of memory, and then the table is as before.
    pub fn define(&mut self, def: MacroDef) -> Result<Defined, AllocError>
        ensures outcome { IfOk result (λ defined. IsOutcome (map.get self.old def.name) def defined) }
        ensures table { IfOk result (λ defined. self.new ≡ table_after defined self.old def) }
        ensures kept { OnErr result (self.new ≡ self.old) }
    {
        if let Some(kept) = self.macros.get(def.name.as_str()) {
            if same(kept, &def) {
                return Ok(Defined::Same);
            }
            let tok = kept.tok.copy()?;
            return Ok(Defined::Clash(tok));
        }
        let name = String::from_str(self.alloc, def.name.as_str())?;
        match self.macros.insert(name, def) {
            Ok(_) => Ok(Defined::Fresh),
            Err(failed) => Err(AllocError::from(failed)),
        }
    }
}
