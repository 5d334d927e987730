// The texts that some paths had at an earlier moment.
ghost use Rattle.std.specs.Prelude.{◌≡◌, ◌≤◌, not, length, option_map, OnOk, OnErr, IfOk, IfSome};
ghost use Rattle.std.specs.FinMap.{empty, keys};
ghost use Rattle.doc_texts.specs.Limits.{longest_kept};
ghost use Rattle.doc_texts.specs.Texts.{text_at, same_text};
ghost use Rattle.doc_texts.specs.Prior.{remembered, is_changed, text_before};

use crate::docs::Docs;
use crate::kept::KeptText;
use std::alloc::{AllocError, Global};
use std::collections::BTreeMap;
use std::marker::Model;
use uri_paths::Path;

/// Copies of the texts that some paths had at an earlier moment, or that they had none. Contracts see it as `Prior`.
#[derive(Drop)]
pub struct PriorTexts {
    alloc: Global,
    texts: BTreeMap<Path, Option<KeptText>>,
}

impl Model for PriorTexts {
    ghost use Rattle.std.specs.Coded.{coded_ℕ, coded_list, coded_option};
    ghost use Rattle.std.specs.FinMap.{from_entries, code};
    ghost use Rattle.doc_texts.specs.Prior.{Prior};

    ghost Value = { Prior };

    ghost coded = { code (coded_list coded_ℕ) (coded_option (coded_list coded_ℕ)) };

    ghost view = { λ prior. from_entries prior.texts.entries };
}

impl PriorTexts {
    /// No path's text. It takes no memory.
    pub fn new(alloc: Global) -> PriorTexts
        ensures { result ≡ empty }
    {
        PriorTexts {
            alloc,
            texts: BTreeMap::new(alloc),
        }
    }

    /// Keeps a copy of the text that a path has now, or that it has none, unless something is kept for it. It costs the text and a
    /// logarithm of the number of paths.
    pub fn remember(&mut self, docs: &Docs, path: &Path) -> Result<(), AllocError>
        ensures ok { OnOk result (self.new ≡ remembered self.old docs.now path.now) }
        ensures kept { OnErr result (self.new ≡ self.old) }
    {
        if self.texts.contains_key(path) {
            return Ok(());
        }
        let text = copy_of(self.alloc, docs, path)?;
        let key = path.share()?;
        self.texts.insert(key, text)?;
        Ok(())
    }

    /// The paths for which something is kept, in byte order.
    pub fn paths(&self) -> Result<Vec<Path>, AllocError>
        ensures { IfOk result (λ paths. paths.items ≡ keys self.now) }
    {
        let mut paths = Vec::new(self.alloc);
        for path in self.texts.keys() {
            paths.push(path.share()?)?;
        }
        Ok(paths)
    }

    /// The text that a path had: the one that is kept for it, or else the one that it has now. It takes no memory.
    pub fn text<'a>(&'a self, docs: &'a Docs, path: &Path) -> Option<&'a str>
        ensures text { option_map (λ text. text.now) result ≡ text_before self.now docs.now path.now }
        ensures short { IfSome result (λ text. length text.now ≤ longest_kept) }
    {
        match self.texts.get(path) {
            Some(kept) => lent(kept),
            None => docs.text(path),
        }
    }

    /// Whether the text of a path, or that it has none, is another than what is kept for it; not where nothing is kept. It takes
    /// no memory.
    pub fn is_changed(&self, docs: &Docs, path: &Path) -> bool
        ensures { result ≡ is_changed self.now docs.now path.now }
    {
        match self.texts.get(path) {
            Some(kept) => has_other(docs, path, kept),
            None => false,
        }
    }
}

/// Whether a path has another text than the one that is kept, if there is one.
fn has_other(docs: &Docs, path: &Path, kept: &Option<KeptText>) -> bool
    ensures { result ≡ not (same_text kept.now (text_at docs.now path.now)) }
{
    match (lent(kept), docs.text(path)) {
        (None, None) => false,
        (Some(a), Some(b)) => a != b,
        _ => true,
    }
}

/// A copy of the text that a path has, if it has one.
fn copy_of(alloc: Global, docs: &Docs, path: &Path) -> Result<Option<KeptText>, AllocError>
    ensures { IfOk result (λ text. text ≡ text_at docs.now path.now) }
{
    match docs.text(path) {
        Some(text) => Ok(Some(KeptText::from_str(alloc, text)?)),
        None => Ok(None),
    }
}

/// The text that is kept, if there is one.
fn lent(kept: &Option<KeptText>) -> Option<&str>
    ensures text { option_map (λ text. text.now) result ≡ kept.now }
    ensures short { IfSome result (λ text. length text.now ≤ longest_kept) }
{
    match kept {
        Some(text) => Some(text.as_str()),
        None => None,
    }
}
