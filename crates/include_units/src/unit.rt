// A unit that is read as far as what it asks is told.
ghost use Rattle.std.specs.Prelude.{◌≡◌, ◌≤◌, ◌+◌, ◌∷◌, [], ℕ, List, IfOk, OnOk, OnErr, IfSome, length, true};
ghost use Rattle.c_tokens.specs.Languages.{is_identifier};
ghost use Rattle.project_conf.specs.Defines.{AreUsable, name_of, size_of};
ghost use Rattle.include_units.specs.Coming.{IsShortAnswer};
ghost use Rattle.include_units.specs.declared.types.FileAnswer.{FileAnswer as Answer};
ghost use Rattle.include_units.specs.Stack.{IsRead, rest_by, reading_left};
ghost use Rattle.include_units.specs.Units.{command_text, unit_tokens};
ghost use Rattle.include_units.specs.Going.{IsGoing, begun, with_answer};

use crate::kept::Kept;
use crate::stack::{Reading, at_first, read_on};
use crate::told::Told;
use crate::types::{FileAnswer, Go, Want, Wants};
use c_tokens::is_identifier;
use project_conf::{Define, Defines, IncludePaths, UnitConf};
use std::alloc::{AllocError, Global};
use std::marker::Model;
use uri_paths::Path;

/// A unit. Contracts see how it is read, and what it was told of files.
#[derive(Drop)]
pub struct Unit {
    conf: UnitConf,
    files: Told,
    // What was read of it; nothing where it begins at its front.
    reading: Kept,
    alloc: Global,
}

impl Model for Unit {
    ghost use Rattle.std.specs.Prelude.{◌≤◌, length};
    ghost use Rattle.include_units.specs.Going.{Asked};

    ghost Value = { Asked };

    ghost view = { λ u. record { conf = u.conf; answers = u.files } };

    ghost use Rattle.include_units.specs.Units.{command_text};
    ghost use Rattle.include_units.specs.Stack.{IsRead};

    ghost invariant = { λ u. (length (command_text u.conf.defines) ≤ 4290772992) × IsRead u.conf u.files u.reading };
}

fn copied_paths(alloc: Global, paths: &[Path]) -> Result<IncludePaths, AllocError>
    ensures { IfOk result (λ copy. copy ≡ paths.now) }
{
    let mut out = Vec::new(alloc);
    for path in paths {
        let copy = path.share()?;
        out.push(copy)?;
    }
    Ok(IncludePaths::from_vec(out))
}

fn copied_defines(alloc: Global, defines: &[Define]) -> Result<Defines, AllocError>
    ensures { IfOk result (λ copy. copy ≡ defines.now) }
{
    let mut out = Vec::new(alloc);
    for define in defines {
        let copy = define.share()?;
        out.push(copy)?;
    }
    Ok(Defines::from_vec(out))
}

fn copied_conf(alloc: Global, conf: &UnitConf) -> Result<UnitConf, AllocError>
    ensures { IfOk result (λ copy. copy ≡ conf.now) }
{
    let file = conf.file.share()?;
    let includes = copied_paths(alloc, conf.includes.as_slice())?;
    let defines = copied_defines(alloc, conf.defines.as_slice())?;
    Ok(UnitConf {
        file,
        includes,
        defines,
    })
}

fn needs(alloc: Global, want: Want) -> Result<Wants, AllocError>
    ensures { IfOk result (λ wants. wants ≡ want ∷ []) }
{
    let mut wants = Vec::new(alloc);
    wants.push(want)?;
    Ok(Wants::from_vec(wants))
}

fn taken_up(alloc: Global, conf: &UnitConf, reading: Option<Reading>) -> Result<Reading, AllocError>
    requires { length (command_text conf.now.defines) ≤ 4290772992 }
    ensures { IfOk result (λ now. (answers : List (List ℕ × Answer)) → IsRead conf.now answers reading → rest_by answers (reading_left conf.now.includes now) ≡ rest_by answers (unit_tokens conf.now)) }
{
    match reading {
        Some(reading) => Ok(reading),
        None => {
            let first = at_first(alloc, conf)?;
            Ok(first)
        }
    }
}

// What a unit comes to over these answers. It goes on where it stopped; nothing was read where it was refused memory.
#[tactic(auto, using(crate::proofs::Moving::read_nothing))]
fn going(alloc: Global, conf: &UnitConf, files: &Told, reading: &mut Kept) -> Result<Go, AllocError>
    requires short { length (command_text conf.now.defines) ≤ 4290772992 }
    requires read { IsRead conf.now files.now reading.old }
    ensures going { IfOk result (λ go. IsGoing conf.now files.now go) }
    ensures read { IsRead conf.now files.now reading.new }
{
    let before = reading.take();
    let mut now = taken_up(alloc, conf, before)?;
    let Ok(want) = read_on(alloc, conf.includes.as_slice(), files, &mut now) else {
        drop(now);
        return Err(AllocError);
    };
    match want {
        Some(want) => {
            let Ok(wants) = needs(alloc, want) else {
                drop(now);
                return Err(AllocError);
            };
            reading.keep(alloc, now)?;
            Ok(Go::Need(wants))
        }
        None => {
            let tokens = now.made.told();
            Ok(Go::Done(tokens))
        }
    }
}

// What is left of a size when a definition was taken away, whose name is an identifier; none where there is too little, or
// the name is none.
fn size_behind(define: &Define, size: usize) -> Option<usize>
    ensures { IfSome result (λ left. (is_identifier (name_of define.now) ≡ true) × (left + size_of define.now ≡ size)) }
{
    match define {
        Define::Set(name, text) => {
            let left = size_behind_name(name.as_str(), size)?;
            if text.as_str().len() <= left {
                return Some(left - text.as_str().len());
            }
            None
        }
        Define::Unset(name) => size_behind_name(name.as_str(), size),
    }
}

fn size_behind_name(name: &str, size: usize) -> Option<usize>
    ensures { IfSome result (λ left. (is_identifier name.now ≡ true) × (left + length name.now ≡ size)) }
{
    if name.len() <= size && is_identifier(name) {
        return Some(size - name.len());
    }
    None
}

/// Whether a unit may begin with these definitions: their names are identifiers, and names and texts have together at most
/// 2^28 bytes.
#[tactic(auto, using(crate::proofs::CommandLemmas::usable_more, crate::proofs::CommandLemmas::usable_none))]
pub fn are_usable(defines: &[Define]) -> bool
    ensures { result ≡ true → AreUsable 268435456 defines.now }
{
    let mut size = 268_435_456;
    let mut rest = defines;
    while let Some((define, behind)) = rest.split_first() {
        rest = behind;
        match size_behind(define, size) {
            Some(left) => size = left,
            None => return false,
        }
    }
    true
}

/// Whether an answer has at most 4,290,772,992 tokens.
pub fn is_short(answer: &FileAnswer) -> bool
    ensures { result ≡ true → IsShortAnswer answer.now }
{
    match answer {
        FileAnswer::Tokens(tokens) => tokens.as_slice().len() <= 4_290_772_992,
        FileAnswer::Absent => true,
        FileAnswer::There => true,
        FileAnswer::Lines(_) => true,
    }
}

impl Unit {
    /// The unit that is read so; it is told nothing. Names of definitions are identifiers, and their names and texts have
    /// together at most 2^28 bytes. It fails for want of memory alone.
    pub fn start(alloc: Global, conf: &UnitConf) -> Result<Unit, AllocError>
        requires { AreUsable 268435456 conf.now.defines }
        ensures { IfOk result (λ unit. unit ≡ begun conf.now) }
    {
        let conf = copied_conf(alloc, conf)?;
        let files = Told::new(alloc);
        Ok(Unit {
            conf,
            files,
            reading: Kept::nothing(),
            alloc,
        })
    }

    /// Tells an answer about a path, which has at most 4,290,772,992 tokens. Where a question was answered before, the first
    /// answer counts. It fails for want of memory alone, and then nothing was told.
    pub fn tell(&mut self, path: Path, answer: FileAnswer) -> Result<(), AllocError>
        requires { IsShortAnswer answer }
        ensures told { OnOk result (self.new ≡ with_answer self.old path answer) }
        ensures kept { OnErr result (self.new ≡ self.old) }
    {
        match self.files.tell(path, answer) {
            Ok(()) => Ok(()),
            Err(refusal) => Err(refusal),
        }
    }

    /// What the unit comes to over all that it was told. Done comes with its tokens exactly where that answers all that it
    /// asks; else Need has what it asks next, which it wasn't told. It fails for want of memory alone.
    ///
    /// It goes on where it stopped, so all calls for one unit together read each text once for each time that it is entered.
    /// Where a call was refused memory, and behind Done, the next call reads the unit anew.
    pub fn go(&mut self) -> Result<Go, AllocError>
        ensures going { IfOk result (λ go. IsGoing self.old.conf self.old.answers go) }
        ensures same { self.new ≡ self.old }
    {
        going(self.alloc, &self.conf, &self.files, &mut self.reading)
    }
}
