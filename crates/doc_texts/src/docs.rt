// The texts that stand, and the calls that change them.
ghost use Rattle.std.specs.Prelude.{◌≡◌, ◌≢◌, ◌↔◌, true, false, ◌≤◌, ◌<◌, ◌^◌, ◌+◌, ◌-◌, ℕ, length, Err, Some, None, option_map, IsTrue, IfOk, IfSome, OnOk, OnErr};
ghost use Rattle.doc_texts.specs.Texts.{text_at, version_at, uri_at, paths_of, file_count, byte_count, texts_under, add_all, with_disk, without_disk, with_open, without_open};
ghost use Rattle.doc_texts.specs.Docs.{is_outside, allowed, fits, loaded, opened, changed, closed, IsDone};
ghost use Rattle.doc_texts.specs.Edited.{with_text_at, with_edits, edited, CanBeMade, CanAllBeMade};
ghost use Rattle.doc_texts.specs.Kept.{Counted, files_with, disk_size, open_size};
ghost use Rattle.doc_texts.specs.Limits.{longest_text, longest_kept, longest_name};
ghost use Rattle.std.specs.FinMap.{get, contains_key, keys};

use crate::changes::edited;
use crate::copies::{disk_again, opened_again, root_again};
use crate::error::DocError;
use crate::kept::{KeptText, OpenDoc};
use crate::path_set::PathSet;
use crate::ranges::{TextEdits, can_be_made, renamed};
use std::alloc::{AllocError, Global};
use std::collections::BTreeMap;
use std::marker::Model;
use std::str;
use text_lines::{Change, Encoding};
use uri_paths::{Path, under};

/// The most paths that may have a text.
const MOST_FILES: u128 = 4_096;

/// The most bytes that a text may have.
const LONGEST_TEXT: usize = 4_194_304;

/// The most bytes of all texts together.
const MOST_BYTES: u128 = 67_108_864;

/// The most files or bytes that are counted: more have no room in memory.
const MOST_COUNTED: u128 = 18_446_744_073_709_551_615;

/// How many paths have a text, and the bytes of all texts.
#[derive(Clone, Copy, Drop)]
struct Counts {
    files: usize,
    bytes: usize,
}

/// The texts of files on disk and the open documents, by path. An open text hides that on disk. Contracts see it as `Texts`.
#[derive(Drop)]
pub struct Docs {
    alloc: Global,
    root: Option<Path>,
    disk: BTreeMap<Path, KeptText>,
    opened: BTreeMap<Path, OpenDoc>,
    /// How many paths have a text.
    files: usize,
    /// The bytes of all texts.
    bytes: usize,
}

impl Model for Docs {
    ghost use Rattle.doc_texts.specs.Texts.{Texts, texts_code};

    ghost Value = { Texts };

    ghost coded = { texts_code };

    ghost use Rattle.doc_texts.specs.Kept.{texts_in, IsCounted};

    ghost view = { texts_in };

    ghost invariant = { IsCounted };
}

impl Docs {
    /// No texts, under this root or none. It takes no memory.
    pub fn new(alloc: Global, root: Option<Path>) -> Docs
        ensures { result ≡ texts_under root }
    {
        Docs {
            alloc,
            root,
            disk: BTreeMap::new(alloc),
            opened: BTreeMap::new(alloc),
            files: 0,
            bytes: 0,
        }
    }

    /// The path of the root, if there is one.
    pub fn root(&self) -> Option<&Path>
        ensures { option_map (λ root. root.now) result ≡ self.now.root }
    {
        self.root.as_ref()
    }

    /// Whether there is a root, and a path isn't under it. It takes no memory.
    pub fn is_outside(&self, path: &Path) -> bool
        ensures { result ≡ is_outside self.now path.now }
    {
        match &self.root {
            Some(root) => !under(root, path),
            None => false,
        }
    }

    /// Sets the text on disk at a path, or drops it where there are no bytes. It costs the text and a logarithm of the number of
    /// files. All is unchanged after a refusal, which is the first that holds of OutsideRoot, NotText, TooLong, TooManyFiles and
    /// TooMuchText, or want of memory.
    pub fn load(&mut self, path: &Path, bytes: Option<&[u8]>) -> Result<(), DocError>
        ensures { IsDone result self.old self.new (loaded self.old path.now (option_map (λ bytes. bytes.now) bytes.entry)) }
    {
        if self.is_outside(path) {
            return Err(DocError::OutsideRoot);
        }
        let Some(bytes) = bytes else {
            self.drop_disk(path);
            return Ok(());
        };
        let Ok(text) = str::from_utf8(bytes) else {
            return Err(DocError::NotText);
        };
        if text.len() > LONGEST_TEXT {
            return Err(DocError::TooLong);
        }
        self.set_disk(path, text)
    }

    /// Opens a document (LSP 3.17, textDocument/didOpen). It costs the text and a logarithm of the number of files. All is
    /// unchanged after a refusal, which is the first that holds of OutsideRoot, AlreadyOpen, TooLong, TooManyFiles and
    /// TooMuchText, or want of memory.
    pub fn open_doc(
        &mut self,
        path: &Path,
        uri: &str,
        version: i32,
        text: &str,
    ) -> Result<(), DocError>
        ensures { IsDone result self.old self.new (opened self.old path.now uri.now version text.now) }
    {
        if self.is_outside(path) {
            return Err(DocError::OutsideRoot);
        }
        if self.is_open(path) {
            return Err(DocError::AlreadyOpen);
        }
        if text.len() > LONGEST_TEXT {
            return Err(DocError::TooLong);
        }
        self.add_open(path, uri, version, text)
    }

    /// Changes an open document (LSP 3.17, textDocument/didChange), each change in the text that the one before left. The document
    /// keeps the URI that it was opened with. It costs one copy of the text, what the changes cost and a logarithm of the number
    /// of files. All is unchanged after a refusal, which is the first that holds of OutsideRoot, NotOpen, Reversed and TooLong
    /// change by change, and TooMuchText, or want of memory.
    pub fn change(
        &mut self,
        path: &Path,
        version: i32,
        changes: &[Change],
        encoding: Encoding,
    ) -> Result<(), DocError>
        ensures { IsDone result self.old self.new (changed self.old path.now version changes.now encoding) }
    {
        if self.is_outside(path) {
            return Err(DocError::OutsideRoot);
        }
        let Some(text) = self.open_text(path) else {
            return Err(DocError::NotOpen);
        };
        let freed = text.len();
        let text = edited(self.alloc(), text, changes, encoding)?;
        self.set_open(path, version, text, freed)
    }

    /// Closes a document (LSP 3.17, textDocument/didClose): its open text is dropped. It takes no memory and costs a logarithm of
    /// the number of files. All is unchanged after a refusal, which is the first that holds of OutsideRoot and NotOpen.
    pub fn close_doc(&mut self, path: &Path) -> Result<(), DocError>
        ensures done { IsDone result self.old self.new (closed self.old path.now) }
        ensures never { result ≢ Err DocError.NoMemory }
    {
        if self.is_outside(path) {
            return Err(DocError::OutsideRoot);
        }
        if !self.is_open(path) {
            return Err(DocError::NotOpen);
        }
        self.drop_open(path);
        Ok(())
    }

    /// The text at a path: that of the open document, else that on disk. It takes no memory and costs a logarithm of the number
    /// of files.
    pub fn text(&self, path: &Path) -> Option<&str>
        ensures text { option_map (λ text. text.now) result ≡ text_at self.now path.now }
        ensures short { IfSome result (λ text. length text.now ≤ 4290772992) }
    {
        match self.opened.get(path) {
            Some(document) => Some(document.text()),
            None => self.disk_text(path),
        }
    }

    /// The version of the document that is open at a path. It takes no memory and costs a logarithm of the number of files.
    pub fn version(&self, path: &Path) -> Option<i32>
        ensures { result ≡ version_at self.now path.now }
    {
        match self.opened.get(path) {
            Some(document) => Some(document.version()),
            None => None,
        }
    }

    /// The URI that the document at a path was opened with. It takes no memory and costs a logarithm of the number of files.
    pub fn uri(&self, path: &Path) -> Option<&str>
        ensures { option_map (λ uri. uri.now) result ≡ uri_at self.now path.now }
    {
        match self.opened.get(path) {
            Some(document) => Some(document.uri()),
            None => None,
        }
    }

    /// The paths that have a text, in byte order, each once. It costs n log n for n files.
    pub fn paths(&self) -> Result<Vec<Path>, AllocError>
        ensures { IfOk result (λ paths. paths.items ≡ paths_of self.now) }
    {
        let mut set = PathSet::new(self.alloc());
        self.list_disk(&mut set)?;
        self.list_open(&mut set)?;
        set.paths()
    }

    /// Whether these edits can be made: a text that stands at one of their paths has at most 4,194,304 bytes, and the ranges stand in
    /// it in order and apart, none of which is empty or cuts a code point. It takes no memory, and costs a logarithm of the number
    /// of files for each path and a step for each range.
    pub fn can_be_edited(&self, edits: &[TextEdits]) -> bool
        ensures { IsTrue result ↔ CanAllBeMade self.now edits.now }
    {
        let mut rest = edits;
        'turn: while let Some((text_edits, behind)) = rest.split_first() {
            rest = behind;
            if !self.can_edit(text_edits) {
                return false;
            }
        }
        true
    }

    /// Whether the edits of one text can be made.
    fn can_edit(&self, text_edits: &TextEdits) -> bool
        ensures { IsTrue result ↔ CanBeMade self.now text_edits.now }
    {
        match self.text(&text_edits.path) {
            Some(text) => can_be_made(text, text_edits.ranges.as_slice()),
            None => true,
        }
    }

    /// The texts with a name in place of ranges of the texts that stand, all of them as they are now (LSP 3.17, WorkspaceEdit). A
    /// path without a text is passed over, and no limit on texts is looked for. It costs a copy of each text that is edited, and
    /// n log n for n files; all other texts are shared. `can_be_edited` tells whether the edits can be made; the name has at most
    /// 1,023 bytes.
    #[tactic(auto, unfolding(crate::specs::Edited::all_made, crate::specs::Edited::edited))]
    pub fn edited(&self, edits: &[TextEdits], new_name: &str) -> Result<Docs, AllocError>
        requires can { CanAllBeMade self.now edits.now }
        requires short { length new_name.now ≤ longest_name }
        ensures { IfOk result (λ docs. docs ≡ edited self.now edits.now new_name.now) }
    {
        let mut made = self.again()?;
        let mut rest = edits;
        'turn: while let Some((text_edits, behind)) = rest.split_first() {
            rest = behind;
            self.edit_in(&mut made, text_edits, new_name)?;
        }
        Ok(made)
    }

    /// The same texts, which are shared.
    fn again(&self) -> Result<Docs, AllocError>
        ensures { IfOk result (λ docs. docs ≡ self.now) }
    {
        let root = root_again(&self.root)?;
        let disk = disk_again(self.alloc, &self.disk)?;
        let opened = opened_again(self.alloc, &self.opened)?;
        Ok(Docs {
            alloc: self.alloc,
            root,
            disk,
            opened,
            files: self.files,
            bytes: self.bytes,
        })
    }

    /// Makes the edits of one text, as it stands here, in other texts.
    fn edit_in(
        &self,
        made: &mut Docs,
        text_edits: &TextEdits,
        new_name: &str,
    ) -> Result<(), AllocError>
        requires can { CanBeMade self.now text_edits.now }
        requires short { length new_name.now ≤ longest_name }
        ensures { OnOk result (made.new ≡ with_edits made.old text_edits.now new_name.now (text_at self.now text_edits.now.path)) }
    {
        match self.text(&text_edits.path) {
            Some(text) => {
                let text = renamed(self.alloc(), text, text_edits.ranges.as_slice(), new_name)?;
                made.put_text_at(&text_edits.path, text)?;
                Ok(())
            }
            None => Ok(()),
        }
    }

    /// Puts a text in place of the one that stands at a path.
    fn put_text_at(&mut self, path: &Path, text: KeptText) -> Result<(), AllocError>
        ensures { OnOk result (self.new ≡ with_text_at self.old path.now text) }
    {
        if self.is_open(path) {
            return self.put_in_open(path, text);
        }
        self.put_on_disk(path, text)
    }

    /// Puts a text in place of that of the document that is open at a path.
    fn put_in_open(&mut self, path: &Path, text: KeptText) -> Result<(), AllocError>
        requires { contains_key self.old.opened path.now ≡ true }
        ensures { OnOk result (self.new ≡ with_text_at self.old path.now text) }
    {
        let bytes = self.total() - self.open_len(path) as u128 + text.as_str().len() as u128;
        let bytes = counted(bytes)?;
        self.swap_text(path, text, bytes);
        Ok(())
    }

    /// Puts a text in place of that on disk at a path, where no document is open.
    fn put_on_disk(&mut self, path: &Path, text: KeptText) -> Result<(), AllocError>
        requires { contains_key self.old.opened path.now ≡ false }
        ensures { OnOk result (self.new ≡ with_text_at self.old path.now text) }
    {
        let bytes = self.total() - self.disk_len(path) as u128 + text.as_str().len() as u128;
        let bytes = counted(bytes)?;
        let files = counted(self.files_with(path))?;
        let key = path.share()?;
        self.put_disk(key, text, Counts { files, bytes })?;
        Ok(())
    }

    /// How many bytes the text of the document that is open at a path has, or 0.
    fn open_len(&self, path: &Path) -> usize
        ensures { result ≡ open_size self.now path.now }
    {
        match self.open_text(path) {
            Some(text) => text.len(),
            None => 0,
        }
    }

    /// Keeps another text of the document that is open at a path, in its version, with which there are so many bytes of texts.
    fn swap_text(&mut self, path: &Path, text: KeptText, bytes: usize)
        requires { IfSome (get self.old.opened path.now) (λ document. bytes ≡ byte_count (with_open self.old path.now (record { uri = document.uri; version = document.version; text = text }))) }
        ensures { IfSome (get self.old.opened path.now) (λ document. self.new ≡ with_open self.old path.now (record { uri = document.uri; version = document.version; text = text })) }
    {
        if let Some(document) = self.opened.get_mut(path) {
            document.set_text(text);
            self.bytes = bytes;
        }
    }

    /// Adds the paths that have a text on disk.
    fn list_disk(&self, set: &mut PathSet) -> Result<(), AllocError>
        ensures { OnOk result (set.new ≡ add_all set.old (keys self.now.disk)) }
    {
        for path in self.disk.keys() {
            set.insert(path.share()?)?;
        }
        Ok(())
    }

    /// Adds the paths at which a document is open.
    fn list_open(&self, set: &mut PathSet) -> Result<(), AllocError>
        ensures { OnOk result (set.new ≡ add_all set.old (keys self.now.opened)) }
    {
        for path in self.opened.keys() {
            set.insert(path.share()?)?;
        }
        Ok(())
    }

    /// A path's text on disk.
    fn disk_text(&self, path: &Path) -> Option<&str>
        ensures text { option_map (λ text. text.now) result ≡ get self.now.disk path.now }
        ensures short { IfSome result (λ text. length text.now ≤ longest_kept) }
    {
        match self.disk.get(path) {
            Some(text) => Some(text.as_str()),
            None => None,
        }
    }

    /// How many bytes a path's text on disk has, or 0.
    fn disk_len(&self, path: &Path) -> usize
        ensures size { result ≡ disk_size self.now path.now }
        ensures within { result ≤ byte_count self.now }
    {
        match self.disk_text(path) {
            Some(text) => text.len(),
            None => 0,
        }
    }

    /// How many files there are where a path has a text.
    fn files_with(&self, path: &Path) -> u128
        ensures { result ≡ files_with self.now path.now }
    {
        if self.text(path).is_some() {
            return self.files as u128;
        }
        self.files as u128 + 1
    }

    /// The bytes of all texts.
    fn total(&self) -> u128
        ensures bytes { result ≡ byte_count self.now }
        ensures within { result < 2 ^ 64 }
    {
        self.bytes as u128
    }

    /// The allocator.
    fn alloc(&self) -> Global {
        self.alloc
    }

    /// Sets a path's text on disk.
    fn set_disk(&mut self, path: &Path, text: &str) -> Result<(), DocError>
        requires { length text.now ≤ longest_text }
        ensures { IsDone result self.old self.new (fits (with_disk self.old path.now text.now)) }
    {
        let bytes = self.total() - self.disk_len(path) as u128 + text.len() as u128;
        let counts = check_limits(self.files_with(path), bytes)?;
        let key = path.share()?;
        let kept = KeptText::from_str(self.alloc(), text)?;
        self.put_disk(key, kept, counts)?;
        Ok(())
    }

    /// Keeps a path's text on disk, with which there are so many files and bytes of texts.
    fn put_disk(&mut self, path: Path, text: KeptText, counts: Counts) -> Result<(), AllocError>
        requires { Counted (with_disk self.old path text) counts.files counts.bytes }
        ensures ok { OnOk result (self.new ≡ with_disk self.old path text) }
        ensures kept { OnErr result (self.new ≡ self.old) }
    {
        self.disk.insert(path, text)?;
        self.files = counts.files;
        self.bytes = counts.bytes;
        Ok(())
    }

    /// Drops a path's text on disk, if there is one.
    fn drop_disk(&mut self, path: &Path)
        ensures { self.new ≡ without_disk self.old path.now }
    {
        let Some(text) = self.disk.remove(path) else {
            return;
        };
        self.bytes -= text.as_str().len();
        if !self.opened.contains_key(path) {
            self.files -= 1;
        }
    }

    /// Opens a document where none is open.
    fn add_open(&mut self, path: &Path, uri: &str, version: i32, text: &str) -> Result<(), DocError>
        requires short { length text.now ≤ longest_text }
        requires shut { get self.old.opened path.now ≡ None }
        ensures { IsDone result self.old self.new (fits (with_open self.old path.now (record { uri = uri.now; version = version; text = text.now }))) }
    {
        let bytes = self.total() + text.len() as u128;
        let counts = check_limits(self.files_with(path), bytes)?;
        let key = path.share()?;
        let document = OpenDoc::new(self.alloc(), uri, version, text)?;
        self.put_open(key, document, counts)?;
        Ok(())
    }

    /// Keeps an open document, with which there are so many files and bytes of texts.
    fn put_open(&mut self, path: Path, document: OpenDoc, counts: Counts) -> Result<(), AllocError>
        requires { Counted (with_open self.old path document) counts.files counts.bytes }
        ensures ok { OnOk result (self.new ≡ with_open self.old path document) }
        ensures kept { OnErr result (self.new ≡ self.old) }
    {
        self.opened.insert(path, document)?;
        self.files = counts.files;
        self.bytes = counts.bytes;
        Ok(())
    }

    /// Whether a document is open at a path.
    fn is_open(&self, path: &Path) -> bool
        ensures { result ≡ contains_key self.now.opened path.now }
    {
        self.opened.contains_key(path)
    }

    /// The text of the document that is open at a path.
    fn open_text(&self, path: &Path) -> Option<&str>
        ensures text { option_map (λ text. text.now) result ≡ option_map (λ document. document.text) (get self.now.opened path.now) }
        ensures short { IfSome result (λ text. length text.now ≤ longest_kept) }
    {
        match self.opened.get(path) {
            Some(document) => Some(document.text()),
            None => None,
        }
    }

    /// Gives the document that is open at a path another text, in place of one of `freed` bytes.
    fn set_open(
        &mut self,
        path: &Path,
        version: i32,
        text: KeptText,
        freed: usize,
    ) -> Result<(), DocError>
        requires { open_size self.old path.now ≡ freed }
        ensures { IfSome (get self.old.opened path.now) (λ document. IsDone result self.old self.new (fits (with_open self.old path.now (record { uri = document.uri; version = version; text = text })))) }
    {
        let bytes = self.total() - freed as u128 + text.as_str().len() as u128;
        let counts = check_limits(self.files_with(path), bytes)?;
        self.put_text(path, version, text, counts.bytes);
        Ok(())
    }

    /// Keeps another text of the document that is open at a path, with which there are so many bytes of texts.
    fn put_text(&mut self, path: &Path, version: i32, text: KeptText, bytes: usize)
        requires { IfSome (get self.old.opened path.now) (λ document. bytes ≡ byte_count (with_open self.old path.now (record { uri = document.uri; version = version; text = text }))) }
        ensures { IfSome (get self.old.opened path.now) (λ document. self.new ≡ with_open self.old path.now (record { uri = document.uri; version = version; text = text })) }
    {
        if let Some(document) = self.opened.get_mut(path) {
            document.set(version, text);
            self.bytes = bytes;
        }
    }

    /// Drops the document that is open at a path, if there is one.
    fn drop_open(&mut self, path: &Path)
        ensures { self.new ≡ without_open self.old path.now }
    {
        let Some(document) = self.opened.remove(path) else {
            return;
        };
        self.bytes -= document.text().len();
        if !self.disk.contains_key(path) {
            self.files -= 1;
        }
    }
}

/// So many files and bytes of texts, or the first limit that they are beyond.
#[tactic(auto, unfolding(crate::specs::Docs::allowed))]
fn check_limits(files: u128, bytes: u128) -> Result<Counts, DocError>
    ensures { result ≡ allowed files bytes (record { files = files; bytes = bytes }) }
{
    if files > MOST_FILES {
        return Err(DocError::TooManyFiles);
    }
    if bytes > MOST_BYTES {
        return Err(DocError::TooMuchText);
    }
    Ok(Counts {
        files: files as usize,
        bytes: bytes as usize,
    })
}

/// So many, if they have room in memory.
fn counted(number: u128) -> Result<usize, AllocError>
    ensures { IfOk result (λ count. count ≡ number) }
{
    if number > MOST_COUNTED {
        return Err(AllocError);
    }
    Ok(number as usize)
}
