// What lexing gives of the texts that units read, once for all units.
ghost use Rattle.std.specs.Prelude.{◌≡◌, ℕ, ◌≤◌, List, [], length, bytes_eq, None, unwrap_or, IfOk, OnOk, if◌then◌else◌};
ghost use Rattle.std.specs.List.{list_any};
ghost use Rattle.std.specs.Option.{option_or};
ghost use Rattle.doc_texts.specs.Prior.{text_before};
ghost use Rattle.doc_texts.specs.Texts.{Texts};
ghost use Rattle.plain_mean.specs.Given.{text_in};
ghost use Rattle.plain_mean.specs.Lexing.{IsLexed, HasLexed, WereLexed, lexing_at};

use c_tokens::lex;
use doc_texts::{Docs, PriorTexts};
use include_units::{PpTokens, TextPlaces};
use shared_text::Name;
use std::alloc::{AllocError, Global};
use std::collections::BTreeMap;
use std::marker::Model;
use std::mem;
use stmt_checks::KeptItems;
use tok_data::FileId;
use uri_paths::Path;

/// The tokens of a text, and their places. A copy shares them.
#[derive(Debug, Drop)]
pub struct LexedText {
    pub tokens: PpTokens,
    pub places: TextPlaces,
}

impl LexedText {
    fn share(&self) -> Result<LexedText, AllocError>
        ensures { IfOk result (λ copy. copy ≡ self.now) }
    {
        let tokens = self.tokens.share()?;
        let places = self.places.share()?;
        Ok(LexedText { tokens, places })
    }
}

fn lexed_text(alloc: Global, text: &str) -> Result<LexedText, AllocError>
    requires { length text.now ≤ 4290772992 }
    ensures { IfOk result (λ l. IsLexed text.now l) }
{
    let lexed = lex(alloc, text)?;
    let (tokens, places) = lexed.split(alloc, text)?;
    let tokens = PpTokens::from_vec(alloc, tokens)?;
    let places = TextPlaces::from_places(alloc, places)?;
    Ok(LexedText { tokens, places })
}

fn text_in<'a>(docs: &'a Docs, path: &Path) -> &'a str
    ensures text { result.now ≡ text_in docs.now path.now }
    ensures short { length result.now ≤ 4290772992 }
{
    match docs.text(path) {
        Some(text) => text,
        None => "",
    }
}

fn text_before<'a>(prior: &'a PriorTexts, docs: &'a Docs, path: &Path) -> &'a str
    ensures text { result.now ≡ unwrap_or (text_before prior.now docs.now path.now) [] }
    ensures short { length result.now ≤ 4290772992 }
{
    match prior.text(docs, path) {
        Some(text) => text,
        None => "",
    }
}

/// A unit's own text.
pub(crate) fn text_of(alloc: Global, unit: &Path) -> Result<FileId, AllocError>
    ensures { IfOk result (λ text. text ≡ unit.now) }
{
    let name = Name::from_str(alloc, unit.as_str())?;
    Ok(FileId::from_name(name))
}

/// What lexing gave of some texts, by path, without the texts, and what is kept of the units that were worked out.
#[derive(Drop)]
pub struct KeptLexings {
    alloc: Global,
    kept: BTreeMap<Path, LexedText>,
    items: KeptItems,
}

impl KeptLexings {
    /// No text was lexed. It takes no memory.
    pub fn new(alloc: Global) -> KeptLexings
        ensures { (texts : Texts) → HasLexed texts result }
    {
        KeptLexings {
            alloc,
            kept: BTreeMap::new(alloc),
            items: KeptItems::none(alloc),
        }
    }

    /// What lexing gives of the text at a path, which is empty where there is none: what is kept, shared, or else lexed
    /// anew. It fails for want of memory alone.
    pub fn at(&self, docs: &Docs, path: &Path) -> Result<LexedText, AllocError>
        requires { HasLexed docs.now self.now }
        ensures { IfOk result (λ l. IsLexed (text_in docs.now path.now) l) }
    {
        match self.kept.get(path) {
            Some(kept) => return kept.share(),
            None => {}
        }
        let lexed = lexed_text(self.alloc, text_in(docs, path))?;
        Ok(lexed)
    }

    /// What lexing gave of the text that a path had, which is empty where it had none: what is kept, shared, or else lexed anew.
    pub(crate) fn before(
        &self,
        prior: &PriorTexts,
        docs: &Docs,
        path: &Path,
    ) -> Result<LexedText, AllocError>
        requires { WereLexed prior.now docs.now self.now }
        ensures { IfOk result (λ l. IsLexed (unwrap_or (text_before prior.now docs.now path.now) []) l) }
    {
        match self.kept.get(path) {
            Some(kept) => return kept.share(),
            None => {}
        }
        let lexed = lexed_text(self.alloc, text_before(prior, docs, path))?;
        Ok(lexed)
    }

    #[tactic(auto, unfolding(crate::specs::Lexing::lexing_at))]
    fn none(alloc: Global) -> KeptLexings
        ensures { (q : List ℕ) → lexing_at result q ≡ None }
    {
        KeptLexings {
            alloc,
            kept: BTreeMap::new(alloc),
            items: KeptItems::none(alloc),
        }
    }

    // Moves what is kept of a path to others.
    fn give(&mut self, path: &Path, others: &mut KeptLexings) -> Result<(), AllocError>
        ensures kept { OnOk result ((q : List ℕ) → lexing_at self.new q ≡ (if bytes_eq q path.now then None else lexing_at self.old q)) }
        ensures given { OnOk result ((q : List ℕ) → lexing_at others.new q ≡ (if bytes_eq q path.now then option_or (lexing_at self.old path.now) (lexing_at others.old q) else lexing_at others.old q)) }
    {
        match self.kept.remove(path) {
            Some(lexed) => {
                others.kept.insert(path.share()?, lexed)?;
                Ok(())
            }
            None => Ok(()),
        }
    }

    // What is kept of the unit at a path is forgotten where the path has no text any more.
    fn forget(&mut self, docs: &Docs, path: &Path) -> Result<(), AllocError>
        ensures { self.new.kept ≡ self.old.kept }
    {
        if docs.text(path).is_some() {
            return Ok(());
        }
        let text = text_of(self.alloc, path)?;
        self.items.forget(&text);
        Ok(())
    }

    /// What is kept of the units at these paths is forgotten where they have no text any more.
    pub(crate) fn forget_gone(&mut self, docs: &Docs, paths: &[Path]) -> Result<(), AllocError>
        ensures { self.new.kept ≡ self.old.kept }
    {
        let mut rest = paths;
        'paths: while let Some((path, behind)) = rest.split_first() {
            rest = behind;
            self.forget(docs, path)?;
        }
        Ok(())
    }

    /// Moves what is kept of these paths to others, where it is kept.
    pub(crate) fn give_all(
        &mut self,
        prior: &PriorTexts,
        docs: &Docs,
        paths: &[Path],
    ) -> Result<KeptLexings, AllocError>
        requires { WereLexed prior.now docs.now self.old }
        ensures kept { IfOk result (λ _. (q : List ℕ) → lexing_at self.new q ≡ (if list_any (bytes_eq q) paths.now then None else lexing_at self.old q)) }
        ensures given { IfOk result (λ others. WereLexed prior.now docs.now others) }
    {
        let mut others = KeptLexings::none(self.alloc);
        let mut rest = paths;
        'paths: while let Some((path, behind)) = rest.split_first() {
            rest = behind;
            self.give(path, &mut others)?;
        }
        Ok(others)
    }
}

/// The texts of a session, each lexed when it is first wanted, and what is kept of the units that were worked out. Contracts see the texts.
#[derive(Drop)]
pub struct Lexings<'a> {
    alloc: Global,
    docs: &'a Docs,
    kept: BTreeMap<Path, LexedText>,
    items: KeptItems,
}

impl<'a> Model for Lexings<'a> {
    ghost use Rattle.doc_texts.specs.Texts.{Texts, texts_code};
    ghost use Rattle.plain_mean.specs.Lexing.{AreLexed};

    ghost Value = { Texts };

    ghost coded = { texts_code };

    ghost view = { λ l. l.docs.now };

    ghost invariant = { λ l. AreLexed l.docs.now l.kept };
}

impl<'a> Lexings<'a> {
    /// These texts, of which none is lexed yet. It takes no memory.
    pub fn new(alloc: Global, docs: &'a Docs) -> Lexings<'a>
        ensures { result ≡ docs.now }
    {
        Lexings {
            alloc,
            docs,
            kept: BTreeMap::new(alloc),
            items: KeptItems::none(alloc),
        }
    }

    /// These texts, of some of which it is kept what lexing gives. It takes no memory.
    pub(crate) fn over(docs: &'a Docs, kept: KeptLexings) -> Lexings<'a>
        requires { HasLexed docs.now kept }
        ensures { result ≡ docs.now }
    {
        Lexings {
            alloc: kept.alloc,
            docs,
            kept: kept.kept,
            items: kept.items,
        }
    }

    /// The texts.
    pub(crate) fn docs(&self) -> &'a Docs
        ensures { result.now ≡ self.now }
    {
        self.docs
    }

    /// What lexing gives of the text at a path, which is empty where there is none.
    pub(crate) fn at(&mut self, path: &Path) -> Result<LexedText, AllocError>
        ensures lexed { IfOk result (λ l. IsLexed (text_in self.old path.now) l) }
        ensures same { self.new ≡ self.old }
    {
        match self.kept.get(path) {
            Some(kept) => return kept.share(),
            None => {}
        }
        let lexed = lexed_text(self.alloc, text_in(self.docs, path))?;
        let copy = lexed.share()?;
        self.kept.insert(path.share()?, lexed)?;
        Ok(copy)
    }

    /// What is kept of the units that were worked out. None is left here.
    pub(crate) fn take_items(&mut self) -> KeptItems
        ensures same { self.new ≡ self.old }
    {
        mem::replace(&mut self.items, KeptItems::none(self.alloc))
    }

    /// This is kept of the units that were worked out.
    pub(crate) fn put_items(&mut self, items: KeptItems)
        ensures same { self.new ≡ self.old }
    {
        self.items = items;
    }

    /// What was lexed, without the texts.
    pub fn into_kept(self) -> KeptLexings
        ensures { HasLexed self.entry result }
    {
        KeptLexings {
            alloc: self.alloc,
            kept: self.kept,
            items: self.items,
        }
    }
}
