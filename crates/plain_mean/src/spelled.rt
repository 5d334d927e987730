// The marks of the tokens that `#` spelled in a unit (6.10.3.2).
ghost use Rattle.std.specs.Prelude.{◌≡◌, ℕ, List, None, Some, map, option_map, bytes_eq, slice_get, IfOk, OnOk, if◌then◌else◌};
ghost use Rattle.include_units.specs.Coming.{question};
ghost use Rattle.include_units.specs.Files.{Text, same};
ghost use Rattle.plain_mean.specs.Given.{given};
ghost use Rattle.plain_mean.specs.Reads.{AreRead, AreTold, path_in, tokens_in};
ghost use Rattle.plain_mean.specs.Spelled as spec;
ghost use Rattle.project_conf.specs.Defines.{AreUsable};

use crate::lexings::Lexings;
use include_units::{PpTokens, UnitTokens, Want, Wants, tokens_named};
use project_conf::{Define, UnitConf};
use scope_tables::{Anchor, Occ, Role};
use shared_text::Name;
use std::alloc::{AllocError, Global};
use std::collections::BTreeMap;
use std::marker::Model;
use tok_data::{FileId, PpToken, TokId};
use uri_paths::Path;

// Paths, by the names of their texts.
#[derive(Drop)]
struct Told {
    alloc: Global,
    paths: BTreeMap<FileId, Path>,
}

impl Told {
    #[tactic(auto, unfolding(crate::specs::Reads::path_in))]
    fn new(alloc: Global) -> Told
        ensures { (q : List ℕ) → path_in result q ≡ None }
    {
        Told {
            alloc,
            paths: BTreeMap::new(alloc),
        }
    }

    fn put(&mut self, path: &Path) -> Result<(), AllocError>
        ensures { OnOk result ((q : List ℕ) → path_in self.new q ≡ (if same (Text q) (Text path.now) then Some q else path_in self.old q)) }
    {
        let name = Name::from_str(self.alloc, path.as_str())?;
        let file = FileId::from_name(name);
        let copy = path.share()?;
        self.paths.insert(file, copy)?;
        Ok(())
    }

    // Puts in the path whose tokens are asked for.
    fn add(&mut self, want: &Want) -> Result<(), AllocError>
        ensures { OnOk result ((q : List ℕ) → path_in self.new q ≡ (if same (Text q) (question want.now) then Some q else path_in self.old q)) }
    {
        match want {
            Want::Text(path) => self.put(path),
            Want::Exists(_) => Ok(()),
            Want::Lines(_) => Ok(()),
        }
    }

    #[tactic(auto, unfolding(crate::specs::Reads::path_in))]
    fn get(&self, file: &FileId) -> Option<&Path>
        ensures { option_map (λ path. path.now) result ≡ path_in self.now file.now }
    {
        self.paths.get(file)
    }
}

fn told_of(alloc: Global, wants: &[Want]) -> Result<Told, AllocError>
    ensures { IfOk result (λ told. AreTold (map question wants.now) told) }
{
    let mut told = Told::new(alloc);
    let mut rest = wants;
    'asks: while let Some((want, behind)) = rest.split_first() {
        rest = behind;
        told.add(want)?;
    }
    Ok(told)
}

// What a unit asked of files, with the paths whose tokens it asked for at hand. Contracts see the questions.
#[derive(Drop)]
struct Answered<'a> {
    wants: &'a [Want],
    told: Told,
}

impl<'a> Model for Answered<'a> {
    ghost use Rattle.std.specs.Prelude.{List, map};
    ghost use Rattle.include_units.specs.Coming.{question};
    ghost use Rattle.include_units.specs.Files.{Question};
    ghost use Rattle.plain_mean.specs.Reads.{AreTold};

    ghost Value = { List Question };

    ghost view = { λ a. map question a.wants.now };

    ghost invariant = { λ a. AreTold (map question a.wants.now) a.told };
}

impl<'a> Answered<'a> {
    fn of(alloc: Global, wants: &'a [Want]) -> Result<Answered<'a>, AllocError>
        ensures { IfOk result (λ answered. answered ≡ map question wants.now) }
    {
        let told = told_of(alloc, wants)?;
        Ok(Answered { wants, told })
    }

    // The path with this name, where its tokens were asked for.
    fn path(&self, file: &FileId) -> Option<&Path>
        ensures { option_map (λ path. path.now) result ≡ spec.told_path self.now file.now }
    {
        self.told.get(file)
    }
}

// The tokens of the text of the session with this name, where the unit asked for them.
fn told_tokens(
    alloc: Global,
    lexings: &mut Lexings<'_>,
    answered: &Answered<'_>,
    file: &FileId,
) -> Result<PpTokens, AllocError>
    ensures tokens { IfOk result (λ tokens. tokens ≡ spec.told_tokens (given lexings.old) (spec.told_path answered.now file.now)) }
    ensures same { lexings.new ≡ lexings.old }
{
    match answered.path(file) {
        Some(path) => {
            let lexed = lexings.at(path)?;
            Ok(lexed.tokens)
        }
        None => PpTokens::from_vec(alloc, Vec::new(alloc)),
    }
}

// The tokens of the text that the unit reads under this name.
fn tokens_read(
    alloc: Global,
    lexings: &mut Lexings<'_>,
    defines: &[Define],
    answered: &Answered<'_>,
    file: &FileId,
) -> Result<PpTokens, AllocError>
    requires { AreUsable 268435456 defines.now }
    ensures tokens { IfOk result (λ tokens. tokens ≡ spec.tokens_read (given lexings.old) defines.now answered.now file.now) }
    ensures same { lexings.new ≡ lexings.old }
{
    let own = tokens_named(alloc, defines, file.as_str())?;
    match own {
        Some(tokens) => Ok(tokens),
        None => {
            let tokens = told_tokens(alloc, lexings, answered, file)?;
            Ok(tokens)
        }
    }
}

// The tokens of texts, by their names.
#[derive(Drop)]
struct Held {
    texts: BTreeMap<FileId, PpTokens>,
}

impl Held {
    #[tactic(auto, unfolding(crate::specs::Reads::tokens_in))]
    fn new(alloc: Global) -> Held
        ensures { (q : List ℕ) → tokens_in result q ≡ None }
    {
        Held {
            texts: BTreeMap::new(alloc),
        }
    }

    fn put(&mut self, file: FileId, tokens: PpTokens) -> Result<(), AllocError>
        ensures { OnOk result ((q : List ℕ) → tokens_in self.new q ≡ (if bytes_eq q file then Some tokens else tokens_in self.old q)) }
    {
        self.texts.insert(file, tokens)?;
        Ok(())
    }

    #[tactic(auto, unfolding(crate::specs::Reads::tokens_in))]
    fn get(&self, file: &FileId) -> Option<&PpTokens>
        ensures { option_map (λ tokens. tokens.now) result ≡ tokens_in self.now file.now }
    {
        self.texts.get(file)
    }
}

// The same, of which each text is looked for once.
fn tokens_at(
    alloc: Global,
    lexings: &mut Lexings<'_>,
    defines: &[Define],
    answered: &Answered<'_>,
    held: &mut Held,
    file: &FileId,
) -> Result<PpTokens, AllocError>
    requires usable { AreUsable 268435456 defines.now }
    requires held { AreRead (spec.tokens_read (given lexings.old) defines.now answered.now) held.old }
    ensures tokens { IfOk result (λ tokens. tokens ≡ spec.tokens_read (given lexings.old) defines.now answered.now file.now) }
    ensures held { OnOk result (AreRead (spec.tokens_read (given lexings.old) defines.now answered.now) held.new) }
    ensures same { lexings.new ≡ lexings.old }
{
    match held.get(file) {
        Some(tokens) => {
            let copy = tokens.share()?;
            return Ok(copy);
        }
        None => {}
    }
    let tokens = tokens_read(alloc, lexings, defines, answered, file)?;
    let copy = tokens.share()?;
    let name = file.copy()?;
    held.put(name, tokens)?;
    Ok(copy)
}

fn spelling_of(alloc: Global, tokens: &[PpToken], at: u32) -> Result<Name, AllocError>
    ensures { IfOk result (λ name. name ≡ spec.spelling_of (slice_get tokens.now at)) }
{
    match tokens.get(at as usize) {
        Some(token) => token.spelling.share(),
        None => Name::from_str(alloc, ""),
    }
}

fn mark_in(alloc: Global, tokens: &PpTokens, tok: &TokId) -> Result<Occ, AllocError>
    ensures { IfOk result (λ mark. mark ≡ spec.mark_in tokens.now tok.now) }
{
    let name = spelling_of(alloc, tokens.as_slice(), tok.at)?;
    let site = tok.copy()?;
    let tok = tok.copy()?;
    Ok(Occ {
        tok,
        anchor: Anchor::Made(site, name),
        role: Role::Spelled,
    })
}

fn marks_of(
    alloc: Global,
    lexings: &mut Lexings<'_>,
    defines: &[Define],
    answered: &Answered<'_>,
    spelled: &[TokId],
) -> Result<Vec<Occ>, AllocError>
    requires { AreUsable 268435456 defines.now }
    ensures marks { IfOk result (λ marks. marks.items ≡ spec.spelled_marks (given lexings.old) defines.now answered.now spelled.now) }
    ensures same { lexings.new ≡ lexings.old }
{
    let mut held = Held::new(alloc);
    let mut marks = Vec::new(alloc);
    let mut rest = spelled;
    'toks: while let Some((tok, behind)) = rest.split_first() {
        rest = behind;
        let tokens = tokens_at(alloc, lexings, defines, answered, &mut held, &tok.file)?;
        let mark = mark_in(alloc, &tokens, tok)?;
        marks.push(mark)?;
    }
    Ok(marks)
}

/// The marks of the tokens that `#` spelled in a unit with this configuration, in their order, by what the unit asked of files. It costs the questions,
/// a look-up each token, and one lexing of each text of the server's own that has one of them.
pub(crate) fn spelled_marks(
    alloc: Global,
    lexings: &mut Lexings<'_>,
    conf: &UnitConf,
    asked: &Wants,
    tokens: &UnitTokens,
) -> Result<Vec<Occ>, AllocError>
    requires { AreUsable 268435456 conf.now.defines }
    ensures marks { IfOk result (λ marks. marks.items ≡ spec.spelled_marks (given lexings.old) conf.now.defines (map question asked.now) tokens.now.spelled) }
    ensures same { lexings.new ≡ lexings.old }
{
    let answered = Answered::of(alloc, asked.as_slice())?;
    let marks = marks_of(
        alloc,
        lexings,
        conf.defines.as_slice(),
        &answered,
        tokens.spelled.as_slice(),
    )?;
    Ok(marks)
}
