// What all files show, over all units of the texts.
ghost use Rattle.std.specs.Prelude.{◌≡◌, ℕ, ◌≤◌, false, List, [], ◌∷◌, ◌++◌, length, bytes_eq, IfOk, OnOk, if◌then◌else◌};
ghost use Rattle.std.specs.List.{filter, list_any};
ghost use Rattle.doc_texts.specs.Texts.{text_at};
ghost use Rattle.plain_mean.specs.Confs.{IsUsable};
ghost use Rattle.plain_mean.specs.Given.{text_in};
ghost use Rattle.plain_mean.specs.Gathered.{AreGathered, faults_at};
ghost use Rattle.plain_mean.specs.Marks.{is_marked};
ghost use Rattle.plain_mean.specs.Shown.{falls_on, is_unit_of, of_file, shown_by, units};
ghost use Rattle.plain_mean.specs.Lists.{shown_in};
ghost use Rattle.tok_data.specs.declared.faults.ShownFault.{ShownFault as Fault};
ghost use Rattle.plain_mean.specs.Within.{AreWithin};

use crate::lexings::Lexings;
use crate::marks::Marks;
use crate::reading::Reading;
use crate::shown::of_text;
use crate::types::{Shown, ShownFaults, ShownList};
use doc_texts::{Docs, paths_are_sets};
use project_conf::Conf;
use shared_text::Name;
use std::alloc::{AllocError, Global};
use std::collections::BTreeMap;
use tok_data::{FileId, ShownFault};
use uri_paths::Path;

// The faults of some units, by the text that they fall on.
#[derive(Drop)]
struct ByFile {
    alloc: Global,
    lists: BTreeMap<FileId, ShownFaults>,
}

impl ByFile {
    fn new(alloc: Global) -> ByFile
        ensures { (file : List ℕ) → faults_at result file ≡ [] }
    {
        ByFile {
            alloc,
            lists: BTreeMap::new(alloc),
        }
    }

    // Takes the faults of a text away, to add to them.
    fn take(&mut self, file: &FileId) -> Vec<ShownFault>
        ensures taken { result.items ≡ faults_at self.old file.now }
        ensures others { (q : List ℕ) → bytes_eq q file.now ≡ false → faults_at self.new q ≡ faults_at self.old q }
    {
        match self.lists.remove(file) {
            Some(faults) => faults.into_vec(),
            None => Vec::new(self.alloc),
        }
    }

    fn put(&mut self, file: FileId, faults: Vec<ShownFault>) -> Result<(), AllocError>
        ensures here { OnOk result (faults_at self.new file ≡ faults.items) }
        ensures others { OnOk result ((q : List ℕ) → bytes_eq q file ≡ false → faults_at self.new q ≡ faults_at self.old q) }
    {
        self.lists.insert(file, ShownFaults::from_vec(faults))?;
        Ok(())
    }

    fn add(&mut self, fault: ShownFault) -> Result<(), AllocError>
        ensures { OnOk result ((q : List ℕ) → faults_at self.new q ≡ faults_at self.old q ++ filter (falls_on q) (fault ∷ [])) }
    {
        let file = fault.tok.file.copy()?;
        let mut faults = self.take(&file);
        faults.push(fault)?;
        self.put(file, faults)
    }

    fn add_all(&mut self, faults: &[ShownFault]) -> Result<(), AllocError>
        ensures { OnOk result ((q : List ℕ) → faults_at self.new q ≡ faults_at self.old q ++ filter (falls_on q) faults.now) }
    {
        let mut rest = faults;
        'faults: while let Some((fault, behind)) = rest.split_first() {
            rest = behind;
            self.add(fault.copy()?)?;
        }
        Ok(())
    }

    fn of(&self, file: &FileId) -> &[ShownFault]
        ensures { result.now ≡ faults_at self.now file.now }
    {
        match self.lists.get(file) {
            Some(faults) => faults.as_slice(),
            None => &[],
        }
    }
}

/// The faults of units and the paths that they read, as they are gathered.
#[derive(Drop)]
pub struct Gathered {
    faults: ByFile,
    reads: Marks,
}

impl Gathered {
    /// Nothing yet. It takes no memory.
    pub fn new(alloc: Global) -> Gathered
        ensures { AreGathered [] [] result }
    {
        Gathered {
            faults: ByFile::new(alloc),
            reads: Marks::new(alloc),
        }
    }

    /// These faults too.
    pub fn add_faults(&mut self, faults: &[ShownFault]) -> Result<(), AllocError>
        ensures { OnOk result ((fs : List Fault) (rs : List (List ℕ)) → AreGathered fs rs self.old → AreGathered (fs ++ faults.now) rs self.new) }
    {
        self.faults.add_all(faults)?;
        Ok(())
    }

    /// These paths are read too.
    pub fn add_reads(&mut self, paths: &[Path]) -> Result<(), AllocError>
        ensures { OnOk result ((fs : List Fault) (rs : List (List ℕ)) → AreGathered fs rs self.old → AreGathered fs (rs ++ paths.now) self.new) }
    {
        self.reads.add_all(paths)?;
        Ok(())
    }
}

// Those of the paths that are units.
fn chosen(
    alloc: Global,
    docs: &Docs,
    reading: &Reading<'_>,
    paths: &[Path],
) -> Result<Vec<Path>, AllocError>
    ensures { IfOk result (λ units. units.items ≡ filter (is_unit_of docs.now reading.now) paths.now) }
{
    let mut out = Vec::new(alloc);
    let mut rest = paths;
    'paths: while let Some((path, behind)) = rest.split_first() {
        rest = behind;
        if !reading.is_unit(docs, path) {
            continue;
        }
        out.push(path.share()?)?;
    }
    Ok(out)
}

/// The units of the texts, in order of path, at most 1,024. It costs the texts' paths.
#[tactic(auto, unfolding(crate::specs::Shown::units))]
pub fn units(alloc: Global, docs: &Docs, reading: &Reading<'_>) -> Result<Vec<Path>, AllocError>
    ensures units { IfOk result (λ list. list.items ≡ units docs.now reading.now) }
    ensures few { IfOk result (λ list. length list.items ≤ 1024) }
{
    let paths = docs.paths()?;
    let mut units = chosen(alloc, docs, reading, paths.as_slice())?;
    units.truncate(1024);
    Ok(units)
}

// What a file shows; one that no unit reads, and on which nothing falls, isn't lexed.
fn list_of(
    alloc: Global,
    lexings: &mut Lexings<'_>,
    gathered: &Gathered,
    path: &Path,
) -> Result<ShownList, AllocError>
    ensures shown { IfOk result (λ list. list ≡ of_file (text_at lexings.old path.now) (faults_at gathered.now.faults path.now) (is_marked gathered.now.reads path.now)) }
    ensures within { IfOk result (λ list. AreWithin (length (text_in lexings.old path.now)) list) }
    ensures same { lexings.new ≡ lexings.old }
{
    let Some(text) = lexings.docs().text(path) else {
        return Ok(ShownList::from_vec(Vec::new(alloc)));
    };
    let file = FileId::from_name(Name::from_str(alloc, path.as_str())?);
    let faults = gathered.faults.of(&file);
    let read = gathered.reads.has(path);
    if faults.is_empty() && !read {
        return Ok(ShownList::from_vec(Vec::new(alloc)));
    }
    let lexed = lexings.at(path)?;
    of_text(alloc, text, &lexed, faults, read)
}

/// What files show, by path.
#[derive(Drop)]
pub struct ShownLists {
    lists: BTreeMap<Path, ShownList>,
}

impl ShownLists {
    /// What no file shows. It takes no memory.
    pub fn new(alloc: Global) -> ShownLists
        ensures { (q : List ℕ) → shown_in result q ≡ [] }
    {
        ShownLists {
            lists: BTreeMap::new(alloc),
        }
    }

    fn insert(&mut self, path: Path, list: ShownList) -> Result<(), AllocError>
        ensures { OnOk result ((q : List ℕ) → shown_in self.new q ≡ (if bytes_eq q path then list else shown_in self.old q)) }
    {
        self.lists.insert(path, list)?;
        Ok(())
    }

    /// What a file shows, in order; nothing where it isn't among these. It takes no memory.
    pub fn of(&self, path: &Path) -> &[Shown]
        ensures { result.now ≡ shown_in self.now path.now }
    {
        match self.lists.get(path) {
            Some(list) => list.as_slice(),
            None => &[],
        }
    }
}

fn listed(
    alloc: Global,
    lexings: &mut Lexings<'_>,
    gathered: &Gathered,
    paths: &[Path],
) -> Result<ShownLists, AllocError>
    ensures listed { IfOk result (λ lists. (q : List ℕ) → shown_in lists q ≡ (if list_any (bytes_eq q) paths.now then of_file (text_at lexings.old q) (faults_at gathered.now.faults q) (is_marked gathered.now.reads q) else [])) }
    ensures within { IfOk result (λ lists. (q : List ℕ) → AreWithin (length (text_in lexings.old q)) (shown_in lists q)) }
    ensures same { lexings.new ≡ lexings.old }
{
    let mut lists = ShownLists::new(alloc);
    let mut rest = paths;
    'paths: while let Some((path, behind)) = rest.split_first() {
        rest = behind;
        let list = list_of(alloc, lexings, gathered, path)?;
        lists.insert(path.share()?, list)?;
    }
    Ok(lists)
}

/// How many units the texts have, at most 1,024, of which none is worked out. It costs the texts' paths and the database's entries.
pub fn unit_count(alloc: Global, docs: &Docs, conf: &Conf) -> Result<u32, AllocError>
    requires { IsUsable conf.now }
    ensures { IfOk result (λ count. count ≡ length (units docs.now conf.now)) }
{
    let reading = Reading::of(alloc, conf)?;
    let units = units(alloc, docs, &reading)?;
    Ok(units.len() as u32)
}

/// What each file of the texts shows, by what was gathered of all units. It costs the texts' paths and what was gathered; a text that no unit reads, and on which
/// nothing falls, isn't lexed. It fails for want of memory alone.
pub fn shown_lists(
    alloc: Global,
    lexings: &mut Lexings<'_>,
    gathered: &Gathered,
) -> Result<ShownLists, AllocError>
    ensures shown { IfOk result (λ lists. (fs : List Fault) (rs : List (List ℕ)) → AreGathered fs rs gathered.now → (path : List ℕ) → shown_in lists path ≡ shown_by lexings.old fs rs path) }
    ensures within { IfOk result (λ lists. (path : List ℕ) → AreWithin (length (text_in lexings.old path)) (shown_in lists path)) }
    ensures same { lexings.new ≡ lexings.old }
{
    paths_are_sets();
    let paths = lexings.docs().paths()?;
    let lists = listed(alloc, lexings, gathered, paths.as_slice())?;
    Ok(lists)
}
