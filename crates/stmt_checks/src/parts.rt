// The tokens of an item as it sees them, so that it is known again (ISO C11 6.9).
ghost use Rattle.std.specs.Prelude.{◌≡◌, ◌∷◌, ◌++◌, is_some, IfOk, IfSome, IsTrue};
ghost use Rattle.std.specs.Vec.Iter.{into_iter_items};
ghost use Rattle.elab_state.specs.Tokens.{bare, bare_tokens};
ghost use Rattle.stmt_checks.specs.Firm as spec;
ghost use Rattle.stmt_checks.specs.Last.{if_any};

use scope_tables::{BodyMeaning, HeadMeaning};
use shared_text::Name;
use std::alloc::{AllocError, Global};
use std::vec::IntoIter;
use tok_data::{OutToken, PpKind};
use type_data::ItemName;

/// What an item sees of one of its tokens.
#[derive(Drop)]
pub(crate) struct Word {
    pub kind: PpKind,
    pub spelling: Name,
}

/// The tokens of a body; the first is this one of the item.
#[derive(Drop)]
pub(crate) struct BodyPart {
    pub words: Vec<Word>,
    pub base: u32,
}

/// An item: its name, the tokens of its head, and those of the body where one was looked at.
#[derive(Drop)]
pub(crate) struct Part {
    pub name: ItemName,
    pub words: Vec<Word>,
    pub body: Option<BodyPart>,
}

/// An item that was worked out, and what it means.
#[derive(Drop)]
pub(crate) struct KeptItem {
    pub part: Part,
    pub head: HeadMeaning,
    pub body: Option<BodyMeaning>,
}

/// The items of a unit that weren't taken over yet.
#[derive(Drop)]
pub(crate) struct LeftOver {
    pub parts: IntoIter<Part>,
    pub heads: IntoIter<HeadMeaning>,
    pub bodies: IntoIter<BodyMeaning>,
}

impl LeftOver {
    /// The next of them.
    pub(crate) fn next(&mut self) -> Option<KeptItem>
        ensures parts { IfSome result (λ k. into_iter_items self.old.parts ≡ k.part ∷ into_iter_items self.new.parts) }
        ensures heads { IfSome result (λ k. into_iter_items self.old.heads ≡ k.head ∷ into_iter_items self.new.heads) }
        ensures bodies { IfSome result (λ k. into_iter_items self.old.bodies ≡ if_any k.body ++ into_iter_items self.new.bodies) }
        ensures body { IfSome result (λ k. is_some k.body ≡ is_some k.part.body) }
    {
        let part = self.parts.next()?;
        let Some(head) = self.heads.next() else {
            drop(part);
            return None;
        };
        if part.body.is_none() {
            return Some(KeptItem {
                part,
                head,
                body: None,
            });
        }
        let Some(body) = self.bodies.next() else {
            drop(part);
            drop(head);
            return None;
        };
        Some(KeptItem {
            part,
            head,
            body: Some(body),
        })
    }
}

fn word_of(token: &OutToken) -> Result<Word, AllocError>
    ensures { IfOk result (λ w. spec.token_of w ≡ bare token.now) }
{
    let spelling = token.spelling.share()?;
    Ok(Word {
        kind: token.kind,
        spelling,
    })
}

/// What an item sees of these tokens.
pub(crate) fn words_of(alloc: Global, tokens: &[OutToken]) -> Result<Vec<Word>, AllocError>
    ensures { IfOk result (λ ws. spec.tokens_of ws.items ≡ bare_tokens tokens.now) }
{
    let mut words = Vec::with_capacity(alloc, tokens.len())?;
    let mut rest = tokens;
    'tokens: while let Some((token, behind)) = rest.split_first() {
        let word = word_of(token)?;
        words.push(word)?;
        rest = behind;
    }
    Ok(words)
}

/// Whether an item sees the same of the tokens.
pub(crate) fn are_alike(tokens: &[OutToken], words: &[Word]) -> bool
    ensures { IsTrue result → bare_tokens tokens.now ≡ spec.tokens_of words.now }
{
    let mut rest = tokens;
    let mut left = words;
    'tokens: while let Some((token, behind)) = rest.split_first() {
        let Some((word, more)) = left.split_first() else {
            return false;
        };
        if token.kind != word.kind || token.spelling != word.spelling {
            return false;
        }
        rest = behind;
        left = more;
    }
    left.is_empty()
}
