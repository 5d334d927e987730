// What is made of a unit as it is read, and what is counted and noted on the way.
ghost use Rattle.std.specs.Prelude.{◌≡◌, ◌++◌, ◌∷◌, [], IfOk, OnOk, length};
ghost use Rattle.std.specs.FinMap as map;
ghost use Rattle.pp_cond.specs.Defined as names;
ghost use Rattle.include_units.specs.Made as spec;
ghost use Rattle.include_units.specs.Definitions.{command};
ghost use Rattle.include_units.specs.Units.{at_first, front, told};
ghost use Rattle.include_units.specs.Texts.{token};

use crate::faults::Faults;
use crate::grown::Grown;
use crate::known::{KnownNames, KnownPaths};
use crate::types::{Entered, Entry, Paths, UnitTokens};
use macro_table::MacroTable;
use shared_text::Name;
use std::alloc::{AllocError, Global};
use tok_data::{
    FileId, MacroOcc, MacroOccs, MacroRole, OutToken, OutTokens, PpFault, PpFaults, Spelt, TokId,
    TokIds,
};
use uri_paths::Path;

#[derive(Drop)]
pub(crate) struct Made {
    // The macros that are defined.
    pub(crate) table: MacroTable,
    pub(crate) tokens: Grown<OutToken>,
    pub(crate) faults: Faults,
    pub(crate) reads: KnownPaths,
    pub(crate) spelled: Grown<TokId>,
    pub(crate) entered: Grown<Entered>,
    pub(crate) macros: Grown<MacroOcc>,
    // How many replacements may still be made.
    pub(crate) left: u32,
    // How much of the inclusion budget is left, and whether it was found too small.
    pub(crate) inclusion: usize,
    pub(crate) exploded: bool,
    // The paths of texts that are read once, and the names of the library texts that were.
    pub(crate) once: KnownNames,
    pub(crate) libraries: KnownNames,
    // Output tokens were dropped.
    pub(crate) full: bool,
}

fn is_made(spelt: &Spelt) -> bool
    ensures { result ≡ names.is_made spelt.now }
{
    match spelt {
        Spelt::At(_) => false,
        Spelt::Made => true,
    }
}

fn place(token: &OutToken) -> Result<TokId, AllocError>
    ensures { IfOk result (λ tok. tok ≡ names.place_by token.now.site token.now.spelt) }
{
    match &token.spelt {
        Spelt::At(tok) => tok.copy(),
        Spelt::Made => token.site.copy(),
    }
}

// `__LINE__` and `__FILE__`.
pub(crate) fn is_predefined(name: &str) -> bool
    ensures { result ≡ names.is_predefined name.now }
{
    name == "__LINE__" || name == "__FILE__"
}

// The name's token in the definition that is in force.
fn definition(table: &MacroTable, name: &str) -> Result<Option<TokId>, AllocError>
    ensures { IfOk result (λ tok. tok ≡ names.definition (map.get table.now) name.now) }
{
    if is_predefined(name) {
        return Ok(None);
    }
    match table.get(name) {
        Some(def) => {
            let tok = def.tok.copy()?;
            Ok(Some(tok))
        }
        None => Ok(None),
    }
}

fn occurrence(table: &MacroTable, role: MacroRole, token: &OutToken) -> Result<MacroOcc, AllocError>
    ensures { IfOk result (λ occ. occ ≡ names.occurrence (map.get table.now) role token.now) }
{
    let tok = place(token)?;
    let name = token.spelling.share()?;
    let def = definition(table, token.spelling.as_str())?;
    Ok(MacroOcc {
        tok,
        name,
        role,
        def,
        made: is_made(&token.spelt),
    })
}

// A fault with this text.
pub(crate) fn fault(
    alloc: Global,
    rule: u16,
    tok: &TokId,
    text: &str,
) -> Result<PpFault, AllocError>
    ensures { IfOk result (λ f. f ≡ spec.fault rule tok.now text.now) }
{
    let tok = tok.copy()?;
    let text = Name::from_str(alloc, text)?;
    Ok(PpFault { rule, tok, text })
}

// How `<command>` is entered: as if by the front of the unit's own text.
fn command_entered(alloc: Global, path: &Path) -> Result<Entered, AllocError>
    ensures { IfOk result (λ e. e ≡ record { file = command; by = token path.now front }) }
{
    let by = TokId {
        file: FileId::from_name(Name::from_str(alloc, path.as_str())?),
        at: u32::MAX,
    };
    let file = FileId::from_name(Name::from_str(alloc, "<command>")?);
    Ok(Entered { file, by })
}

// The texts that were entered before the first one.
fn first_entered(alloc: Global, path: &Path) -> Result<Grown<Entered>, AllocError>
    ensures { IfOk result (λ list. list ≡ (record { file = command; by = token path.now front }) ∷ []) }
{
    let entered = command_entered(alloc, path)?;
    let mut list = Grown::new(alloc);
    list.push(entered)?;
    Ok(list)
}

// The texts that are read at least.
fn first_reads(alloc: Global, path: &Path) -> Result<KnownPaths, AllocError>
    ensures { IfOk result (λ list. list ≡ path.now ∷ []) }
{
    let own = path.share()?;
    let mut list = KnownPaths::new(alloc);
    list.push(own)?;
    Ok(list)
}

// The tokens of a unit of some headers grow into no second place.
const ROOM_OF_UNIT: usize = 16_384;

impl Made {
    // What stands before the first text.
    pub(crate) fn at_first(alloc: Global, path: &Path) -> Result<Made, AllocError>
        ensures { IfOk result (λ m. m ≡ at_first path.now) }
    {
        let entered = first_entered(alloc, path)?;
        let reads = first_reads(alloc, path)?;
        let tokens = Grown::with_capacity(alloc, ROOM_OF_UNIT)?;
        Ok(Made {
            table: MacroTable::new(alloc),
            tokens,
            faults: Faults::new(alloc),
            reads,
            spelled: Grown::new(alloc),
            entered,
            macros: Grown::new(alloc),
            left: 4_000_000,
            inclusion: 16_777_216,
            exploded: false,
            once: KnownNames::new(alloc),
            libraries: KnownNames::new(alloc),
            full: false,
        })
    }

    pub(crate) fn told(self) -> UnitTokens
        ensures { result ≡ told self }
    {
        let Made {
            table: _,
            tokens,
            faults,
            reads,
            spelled,
            entered,
            macros,
            left: _,
            inclusion: _,
            exploded: _,
            once: _,
            libraries: _,
            full: _,
        } = self;
        UnitTokens {
            tokens: OutTokens::from_vec(tokens.into_vec()),
            faults: PpFaults::from_vec(faults.into_vec()),
            reads: Paths::from_vec(reads.into_vec()),
            spelled: TokIds::from_vec(spelled.into_vec()),
            entered: Entry::from_vec(entered.into_vec()),
            macros: MacroOccs::from_vec(macros.into_vec()),
        }
    }

    // A fault more.
    pub(crate) fn add_fault(
        &mut self,
        alloc: Global,
        rule: u16,
        tok: &TokId,
        text: &str,
    ) -> Result<(), AllocError>
        ensures { OnOk result (self.new ≡ spec.with_fault rule tok.now text.now self.old) }
    {
        let fault = fault(alloc, rule, tok, text)?;
        self.faults.push(fault)?;
        Ok(())
    }

    // An occurrence of a macro's name more.
    pub(crate) fn add_occurrence(
        &mut self,
        role: MacroRole,
        token: &OutToken,
    ) -> Result<(), AllocError>
        ensures { OnOk result (self.new ≡ spec.with_occurrence role token.now self.old) }
    {
        let occ = occurrence(&self.table, role, token)?;
        self.macros.push(occ)?;
        Ok(())
    }

    // A path more that was read, where it is new.
    pub(crate) fn add_read(&mut self, path: &Path) -> Result<(), AllocError>
        ensures { OnOk result (self.new ≡ spec.with_read path.now self.old) }
    {
        if self.reads.has(path) {
            return Ok(());
        }
        self.reads.push(path.share()?)?;
        Ok(())
    }
}
