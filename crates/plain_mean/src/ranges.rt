// Where the tokens of a class stand in the texts of a session, text by text.
ghost use Rattle.std.specs.Prelude.{◌≡◌, ℕ, ◌≤◌, ◌++◌, ◌∷◌, [], false, List, length, map, bytes_eq, IfOk, OnOk};
ghost use Rattle.std.specs.List.{filter_map};
ghost use Rattle.std.specs.List.Sorted.{IsStrictlySortedBy};
ghost use Rattle.c_tokens.specs.Lexed.{lexed};
ghost use Rattle.doc_texts.specs.Edited.{CanAllBeMade, CanBeMade};
ghost use Rattle.doc_texts.specs.Limits.{longest_name};
ghost use Rattle.doc_texts.specs.Texts as texts;
ghost use Rattle.plain_mean.specs.Collected.{Ascend, numbers_at};
ghost use Rattle.plain_mean.specs.Given.{text_in};
ghost use Rattle.plain_mean.specs.Lexing.{HasLexed};
ghost use Rattle.plain_mean.specs.Ranges as spec;
ghost use Rattle.plain_mean.specs.Shown.{units};
ghost use Rattle.project_conf.specs.declared.conf.Conf.{Conf};
ghost use Rattle.uri_paths.specs.Paths.{path_read};

use crate::laws::{edited_as_meant, units_follow};
use crate::lexings::{KeptLexings, LexedText};
use doc_texts::{ByteRange, Docs, PathSet, TextEdits, edits_follow};
use shared_list::Listing;
use shared_text::Name;
use std::alloc::{AllocError, Global};
use std::collections::BTreeMap;
use tok_data::{FileId, TokId};
use uri_paths::Path;

// Numbers of tokens, by the names of their texts.
#[derive(Drop)]
struct Numbers {
    alloc: Global,
    lists: BTreeMap<FileId, Listing<u32>>,
}

impl Numbers {
    fn new(alloc: Global) -> Numbers
        ensures { (file : List ℕ) → numbers_at result file ≡ [] }
    {
        Numbers {
            alloc,
            lists: BTreeMap::new(alloc),
        }
    }

    // Takes the numbers of a text away, to add to them.
    fn take(&mut self, file: &FileId) -> Vec<u32>
        ensures taken { result.items ≡ numbers_at self.old file.now }
        ensures others { (q : List ℕ) → bytes_eq q file.now ≡ false → numbers_at self.new q ≡ numbers_at self.old q }
    {
        match self.lists.remove(file) {
            Some(numbers) => numbers.into_vec(),
            None => Vec::new(self.alloc),
        }
    }

    fn put(&mut self, file: FileId, numbers: Vec<u32>) -> Result<(), AllocError>
        ensures here { OnOk result (numbers_at self.new file ≡ numbers.items) }
        ensures others { OnOk result ((q : List ℕ) → bytes_eq q file ≡ false → numbers_at self.new q ≡ numbers_at self.old q) }
    {
        self.lists.insert(file, Listing::from_vec(numbers))?;
        Ok(())
    }

    fn add(&mut self, tok: &TokId) -> Result<(), AllocError>
        ensures { OnOk result ((q : List ℕ) → numbers_at self.new q ≡ numbers_at self.old q ++ spec.numbers_in (tok.now ∷ []) q) }
    {
        let file = tok.file.copy()?;
        let mut numbers = self.take(&file);
        numbers.push(tok.at)?;
        self.put(file, numbers)
    }

    fn of(&self, file: &FileId) -> &[u32]
        ensures { result.now ≡ numbers_at self.now file.now }
    {
        match self.lists.get(file) {
            Some(numbers) => numbers.as_slice(),
            None => &[],
        }
    }
}

// The numbers of all tokens, by their texts.
fn all_numbers(alloc: Global, toks: &[TokId]) -> Result<Numbers, AllocError>
    ensures { IfOk result (λ numbers. (q : List ℕ) → numbers_at numbers q ≡ spec.numbers_in toks.now q) }
{
    let mut numbers = Numbers::new(alloc);
    let mut rest = toks;
    'turn: while let Some((tok, behind)) = rest.split_first() {
        rest = behind;
        numbers.add(tok)?;
    }
    Ok(numbers)
}

fn range_at(places: &[(u32, u32)], at: u32) -> Option<ByteRange>
    ensures { result ≡ spec.range_at places.now at }
{
    match places.get(at as usize) {
        Some(place) => Some(ByteRange {
            start: place.0,
            end: place.1,
        }),
        None => None,
    }
}

// Where the tokens with these numbers stand.
fn ranges_at(
    alloc: Global,
    places: &[(u32, u32)],
    numbers: &[u32],
) -> Result<Vec<ByteRange>, AllocError>
    ensures { IfOk result (λ ranges. ranges.items ≡ filter_map (spec.range_at places.now) numbers.now) }
{
    let mut ranges = Vec::new(alloc);
    let mut rest = numbers;
    'turn: while let Some((at, behind)) = rest.split_first() {
        rest = behind;
        match range_at(places, *at) {
            Some(range) => ranges.push(range)?,
            None => {}
        }
    }
    Ok(ranges)
}

// Puts the path of a token's text into a set, where it has one.
fn add_path(alloc: Global, set: &mut PathSet, tok: &TokId) -> Result<(), AllocError>
    ensures { OnOk result (set.new ≡ texts.add_all set.old (filter_map (λ t. path_read t.file) (tok.now ∷ []))) }
{
    let found = Path::read(alloc, tok.file.as_str())?;
    match found {
        Some(path) => set.insert(path),
        None => Ok(()),
    }
}

/// The paths of the texts of these tokens, in byte order, each once; a library text has none. n log n for n tokens.
pub fn paths_in(alloc: Global, toks: &[TokId]) -> Result<Vec<Path>, AllocError>
    ensures { IfOk result (λ paths. paths.items ≡ spec.paths_in toks.now) }
{
    let mut set = PathSet::new(alloc);
    let mut rest = toks;
    'turn: while let Some((tok, behind)) = rest.split_first() {
        rest = behind;
        add_path(alloc, &mut set, tok)?;
    }
    let paths = set.paths()?;
    Ok(paths)
}

fn numbered(
    alloc: Global,
    numbers: &Numbers,
    path: &Path,
    lexed: &LexedText,
) -> Result<Vec<ByteRange>, AllocError>
    ensures { IfOk result (λ ranges. ranges.items ≡ filter_map (spec.range_at lexed.now.places.places) (numbers_at numbers.now path.now)) }
{
    let file = FileId::from_name(Name::from_str(alloc, path.as_str())?);
    let places = lexed.places.as_places();
    let ranges = ranges_at(alloc, places.places.as_slice(), numbers.of(&file))?;
    Ok(ranges)
}

// The edits of the text at a path, by what lexing gives of it.
fn edits_at(
    alloc: Global,
    kept: &KeptLexings,
    docs: &Docs,
    numbers: &Numbers,
    path: &Path,
) -> Result<TextEdits, AllocError>
    requires { HasLexed docs.now kept.now }
    ensures path { IfOk result (λ edits. edits.path ≡ path.now) }
    ensures ranges { IfOk result (λ edits. edits.ranges.items ≡ filter_map (spec.range_at (lexed (text_in docs.now path.now)).places) (numbers_at numbers.now path.now)) }
    ensures can { IfOk result (λ edits. spec.AreShort docs.now → Ascend 0 (numbers_at numbers.now path.now) → CanBeMade docs.now edits) }
{
    let lexed = kept.at(docs, path)?;
    let ranges = numbered(alloc, numbers, path, &lexed)?;
    let path = path.share()?;
    Ok(TextEdits { path, ranges })
}

/// The edits that put a name in the place of each of these tokens that stands in a text of the session, text by text in the order of their paths. They can be made in texts within the limits of a session, where the
/// tokens stand in order, each once. n log n for n tokens; a text that isn't kept lexed is lexed.
pub fn edits_of(
    alloc: Global,
    kept: &KeptLexings,
    docs: &Docs,
    toks: &[TokId],
) -> Result<Vec<TextEdits>, AllocError>
    requires { HasLexed docs.now kept.now }
    ensures edits { IfOk result (λ edits. map spec.plain edits.items ≡ spec.ranges_of docs.now toks.now) }
    ensures can { IfOk result (λ edits. spec.AreShort docs.now → IsStrictlySortedBy spec.tok_cmp toks.now → CanAllBeMade docs.now edits.items) }
{
    let numbers = all_numbers(alloc, toks)?;
    let paths = paths_in(alloc, toks)?;
    let mut edits = Vec::new(alloc);
    let mut rest = paths.as_slice();
    'turn: while let Some((path, behind)) = rest.split_first() {
        rest = behind;
        let made = edits_at(alloc, kept, docs, &numbers, path)?;
        edits.push(made)?;
    }
    Ok(edits)
}

/// The texts with a name in place of each of these tokens, which stand in order, each once; they have the same units. Each text is within the limit of a session, and the name has at most 1,023 bytes. It costs a copy of each
/// text that is edited, all others are shared.
pub fn texts_after(
    alloc: Global,
    kept: &KeptLexings,
    docs: &Docs,
    toks: &[TokId],
    new_name: &str,
) -> Result<Docs, AllocError>
    requires lexed { HasLexed docs.now kept.now }
    requires texts { spec.AreShort docs.now }
    requires order { IsStrictlySortedBy spec.tok_cmp toks.now }
    requires short { length new_name.now ≤ longest_name }
    ensures edited { IfOk result (λ edited. edited ≡ spec.texts_after docs.now toks.now new_name.now) }
    ensures units { IfOk result (λ edited. (conf : Conf) → units edited conf ≡ units docs.now conf) }
{
    edited_as_meant();
    edits_follow();
    units_follow();
    let edits = edits_of(alloc, kept, docs, toks)?;
    let edited = docs.edited(edits.as_slice(), new_name)?;
    Ok(edited)
}
