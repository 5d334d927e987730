// A token of a text, by the text and its number there.
ghost use Rattle.std.specs.Prelude.{◌≡◌, ℕ, List, nat_eq, IfOk};
ghost use Rattle.std.specs.Cmp;
ghost use Rattle.std.specs.Cmp.Lexicographic.{pointwise, slice_cmp, nat_list_eq_equiv, nat_list_cmp_total, texts_ties, texts_po};
ghost use Rattle.std.specs.Cmp.Rules.{hashing};
ghost use Rattle.std.specs.Hash as fed;
ghost use Rattle.std.specs.Ordering.{nat_cmp};
ghost use Rattle.std.specs.Prelude.{Some, refl};
ghost use Rattle.std.proofs.Common.{rules};

use shared_text::Name;
use std::alloc::AllocError;
use std::cmp::Ordering;
use std::hash::{Hash, Hasher};
use std::marker::Model;

/// A text that is read: its path, or `<name>` of a library text. Contracts see it as the bytes of that, and it is
/// ordered by them.
#[derive(Debug, Drop)]
pub struct FileId {
    name: Name,
}

impl Model for FileId {
    ghost use Rattle.std.specs.Prelude.{ℕ, List};

    ghost Value = { List ℕ };

    ghost view = { λ f. f.name };
}

impl FileId {
    /// The text of this name.
    pub fn from_name(name: Name) -> FileId
        ensures { result ≡ name }
    {
        FileId { name }
    }

    /// Its name.
    pub fn as_name(&self) -> &Name
        ensures { result.now ≡ self.now }
    {
        &self.name
    }

    /// Its name's text.
    pub fn as_str(&self) -> &str
        ensures { result.now ≡ self.now }
    {
        self.name.as_str()
    }

    /// The same text, its name shared; it takes no memory but may be refused where the name is shared 2^64 times.
    pub fn copy(&self) -> Result<FileId, AllocError>
        ensures { IfOk result (λ copy. copy ≡ self.now) }
    {
        let name = self.name.share()?;
        Ok(FileId { name })
    }
}

impl PartialEq for FileId {
    ghost eq = { pointwise nat_eq };

    ghost laws = { Cmp.partial_equiv_from_equiv nat_list_eq_equiv };

    fn eq(&self, other: &Self) -> bool {
        self.name.eq(&other.name)
    }
}

impl Eq for FileId {
    ghost laws = { nat_list_eq_equiv };
}

impl PartialOrd for FileId {
    ghost partial_cmp = { λ x y. Some (slice_cmp nat_cmp x y) };

    ghost laws = { texts_po };

    fn partial_cmp(&self, other: &Self) -> Option<Ordering> {
        self.name.partial_cmp(&other.name)
    }
}

impl Ord for FileId {
    ghost cmp = { slice_cmp nat_cmp };

    ghost total = { nat_list_cmp_total };

    ghost matches_partial_cmp = { λ x y. refl };

    ghost matches_eq = { texts_ties };

    fn cmp(&self, other: &Self) -> Ordering {
        self.name.cmp(&other.name)
    }
}

impl Hash for FileId {
    ghost hash_input = { fed.str };

    ghost respects_eq = { Prim.search (hashing, rules) };

    fn hash<H: Hasher>(&self, state: &mut H) {
        self.name.hash(state)
    }
}

/// A preprocessing token of a text, by its number there, from 0. Tokens are ordered by their texts, then by number.
#[derive(Debug, PartialEq, Eq, PartialOrd, Ord, Hash, Drop)]
pub struct TokId {
    pub file: FileId,
    pub at: u32,
}

impl TokId {
    /// The same token; it takes no memory but may be refused where the text's name is shared 2^64 times.
    pub fn copy(&self) -> Result<TokId, AllocError>
        ensures { IfOk result (λ copy. copy ≡ self.now) }
    {
        let file = self.file.copy()?;
        Ok(TokId { file, at: self.at })
    }
}
