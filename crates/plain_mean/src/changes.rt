// The texts that a message changed, each compared with what it was.
ghost use Rattle.std.specs.Prelude.{◌≡◌, ℕ, List, None, bytes_eq, is_some, map, IfOk};
ghost use Rattle.std.specs.BTreeMap.{get};
ghost use Rattle.std.specs.Cmp.Lexicographic.{slice_cmp};
ghost use Rattle.std.specs.FinMap.{keys};
ghost use Rattle.std.specs.List.{filter, list_any};
ghost use Rattle.std.specs.Ordering.{nat_cmp};
ghost use Rattle.doc_texts.specs.Prior.{is_changed, text_before};
ghost use Rattle.doc_texts.specs.Texts.{text_at};
ghost use Rattle.include_units.specs.Coming.{question};
ghost use Rattle.include_units.specs.Files.{Exists, Text};
ghost use Rattle.plain_mean.specs.Lexing.{WereLexed};
ghost use Rattle.plain_mean.specs.Marks.{is_marked};
ghost use Rattle.plain_mean.specs.Renewed.{are_gone, has_other_by};

use crate::answers::path_of;
use crate::lexings::{KeptLexings, Lexings};
use crate::marks::Marks;
use crate::reading::Reading;
use crate::same::{same_conf, same_tokens};
use crate::types::Grounds;
use doc_texts::{Docs, PriorTexts};
use include_units::Want;
use std::alloc::{AllocError, Global};
use std::collections::BTreeMap;
use std::marker::Model;
use uri_paths::Path;

/// The texts that a message changed, each compared with what it was when that is first asked. Contracts see the texts before and now.
#[derive(Drop)]
pub struct Changes<'a> {
    alloc: Global,
    docs: &'a Docs,
    prior: &'a PriorTexts,
    // The paths whose text is another.
    changed: Marks,
    // What lexing gave of changed texts before.
    before: KeptLexings,
    // Whether the tokens of a changed text are others, where that was asked.
    others: BTreeMap<Path, bool>,
}

impl<'a> Model for Changes<'a> {
    ghost use Rattle.plain_mean.specs.Changing.{AreCompared, Changing, changing_code};

    ghost Value = { Changing };

    ghost coded = { changing_code };

    ghost view = { λ c. record { prior = c.prior.now; now = c.docs.now } };

    ghost invariant = { λ c. AreCompared c.prior.now c.docs.now c.changed c.before c.others };
}

// Those of the paths that have another text.
fn changed_among(
    alloc: Global,
    docs: &Docs,
    prior: &PriorTexts,
    paths: &[Path],
) -> Result<Vec<Path>, AllocError>
    ensures { IfOk result (λ changed. changed.items ≡ filter (is_changed prior.now docs.now) paths.now) }
{
    let mut out = Vec::new(alloc);
    let mut rest = paths;
    'paths: while let Some((path, behind)) = rest.split_first() {
        rest = behind;
        if !prior.is_changed(docs, path) {
            continue;
        }
        out.push(path.share()?)?;
    }
    Ok(out)
}

// The paths that have another text.
fn changed_paths(alloc: Global, docs: &Docs, prior: &PriorTexts) -> Result<Vec<Path>, AllocError>
    ensures { IfOk result (λ changed. changed.items ≡ filter (is_changed prior.now docs.now) (keys prior.now)) }
{
    let paths = prior.paths()?;
    let changed = changed_among(alloc, docs, prior, paths.as_slice())?;
    Ok(changed)
}

fn marked(alloc: Global, paths: &[Path]) -> Result<Marks, AllocError>
    ensures { IfOk result (λ marks. (q : List ℕ) → is_marked marks q ≡ list_any (bytes_eq q) paths.now) }
{
    let mut marks = Marks::new(alloc);
    marks.add_all(paths)?;
    Ok(marks)
}

fn had_text(docs: &Docs, prior: &PriorTexts, path: &Path) -> bool
    ensures { result ≡ is_some (text_before prior.now docs.now path.now) }
{
    match prior.text(docs, path) {
        Some(_) => true,
        None => false,
    }
}

fn has_text(docs: &Docs, path: &Path) -> bool
    ensures { result ≡ is_some (text_at docs.now path.now) }
{
    match docs.text(path) {
        Some(_) => true,
        None => false,
    }
}

// A text came or went.
#[tactic(auto, unfolding(crate::specs::Renewed::has_other_by))]
fn comes_or_goes(docs: &Docs, prior: &PriorTexts, path: &Path) -> bool
    ensures { result ≡ has_other_by prior.now docs.now (Exists path.now) }
{
    let before = had_text(docs, prior, path);
    let now = has_text(docs, path);
    before != now
}

// Nothing was compared.
fn none_compared(alloc: Global) -> BTreeMap<Path, bool>
    ensures { (q : List ℕ) → get (slice_cmp nat_cmp) result q ≡ None }
{
    BTreeMap::new(alloc)
}

impl<'a> Changes<'a> {
    /// What a message changed, by the texts before it and what lexing gave of these, of which what didn't change stands in the lexings of the texts now.
    pub fn of(
        alloc: Global,
        docs: &'a Docs,
        prior: &'a PriorTexts,
        kept: KeptLexings,
    ) -> Result<(Changes<'a>, Lexings<'a>), AllocError>
        requires { WereLexed prior.now docs.now kept }
        ensures prior { IfOk result (λ r. r.0.prior ≡ prior.now) }
        ensures now { IfOk result (λ r. r.0.now ≡ docs.now) }
        ensures lexings { IfOk result (λ r. r.1 ≡ docs.now) }
    {
        let mut kept = kept;
        let paths = changed_paths(alloc, docs, prior)?;
        let changed = marked(alloc, paths.as_slice())?;
        let before = kept.give_all(prior, docs, paths.as_slice())?;
        kept.forget_gone(docs, paths.as_slice())?;
        let lexings = Lexings::over(docs, kept);
        let others = none_compared(alloc);
        let changes = Changes {
            alloc,
            docs,
            prior,
            changed,
            before,
            others,
        };
        Ok((changes, lexings))
    }

    // Whether the tokens of a text are others than they were.
    fn has_other_tokens(
        &mut self,
        lexings: &mut Lexings<'_>,
        path: &Path,
    ) -> Result<bool, AllocError>
        requires { lexings.old ≡ self.old.now }
        ensures other { IfOk result (λ other. other ≡ has_other_by self.old.prior self.old.now (Text path.now)) }
        ensures same { self.new ≡ self.old }
        ensures lexings { lexings.new ≡ lexings.old }
    {
        match self.others.get(path) {
            Some(other) => return Ok(*other),
            None => {}
        }
        let before = self.before.before(self.prior, self.docs, path)?;
        let now = lexings.at(path)?;
        let other = !same_tokens(before.tokens.as_slice(), now.tokens.as_slice());
        self.others.insert(path.share()?, other)?;
        Ok(other)
    }

    // Whether a question has another answer.
    fn has_other(&mut self, lexings: &mut Lexings<'_>, want: &Want) -> Result<bool, AllocError>
        requires { lexings.old ≡ self.old.now }
        ensures other { IfOk result (λ other. other ≡ has_other_by self.old.prior self.old.now (question want.now)) }
        ensures same { self.new ≡ self.old }
        ensures lexings { lexings.new ≡ lexings.old }
    {
        if !self.changed.has(path_of(want)) {
            return Ok(false);
        }
        match want {
            Want::Exists(path) => Ok(comes_or_goes(self.docs, self.prior, path)),
            Want::Text(path) => {
                let other = self.has_other_tokens(lexings, path)?;
                Ok(other)
            }
            Want::Lines(_) => Ok(true),
        }
    }

    // Whether one of these questions has another answer.
    fn has_any_other(
        &mut self,
        lexings: &mut Lexings<'_>,
        wants: &[Want],
    ) -> Result<bool, AllocError>
        requires { lexings.old ≡ self.old.now }
        ensures other { IfOk result (λ other. other ≡ list_any (has_other_by self.old.prior self.old.now) (map question wants.now)) }
        ensures same { self.new ≡ self.old }
        ensures lexings { lexings.new ≡ lexings.old }
    {
        let mut rest = wants;
        'wants: while let Some((want, behind)) = rest.split_first() {
            rest = behind;
            let other = self.has_other(lexings, want)?;
            if other {
                return Ok(true);
            }
        }
        Ok(false)
    }

    /// Whether a unit that rested on these grounds has another configuration, or asked something that has another answer now. It costs the questions, and
    /// for each text that changed, once, its lexing.
    #[tactic(auto, unfolding(crate::specs::Renewed::are_gone))]
    pub fn are_gone(
        &mut self,
        lexings: &mut Lexings<'_>,
        reading: &Reading<'_>,
        unit: &Path,
        grounds: &Grounds,
    ) -> Result<bool, AllocError>
        requires { lexings.old ≡ self.old.now }
        ensures gone { IfOk result (λ gone. gone ≡ are_gone self.old.prior self.old.now reading.now unit.now grounds.now) }
        ensures same { self.new ≡ self.old }
        ensures lexings { lexings.new ≡ lexings.old }
    {
        let conf = reading.unit_conf(self.alloc, unit)?;
        if !same_conf(&grounds.conf, &conf) {
            return Ok(true);
        }
        let other = self.has_any_other(lexings, grounds.asked.as_slice())?;
        Ok(other)
    }
}
