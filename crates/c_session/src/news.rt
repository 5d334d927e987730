// What is published after a message that changed texts.
ghost use Rattle.std.specs.Prelude.{◌≡◌, ◌≤◌, ℕ, ◌++◌, List, [], codes, bytes_eq, length, option_map, IfOk, OnOk, unwrap_or};
ghost use Rattle.std.specs.List.{list_any};
ghost use Rattle.doc_texts.specs.Texts.{text_at, add_all};
ghost use Rattle.plain_mean.specs.Given.{text_in};
ghost use Rattle.plain_mean.specs.Lists.{shown_in};
ghost use Rattle.plain_mean.specs.Within.{AreWithin};
ghost use Rattle.c_session.specs.Shown.{same_fault, same_list, has_news, publication};
ghost use Rattle.project_conf.specs.Entries.{refusal};
ghost use Rattle.lsp_answers.specs.Replies.{log};
ghost use Rattle.c_session.specs.Ties.News.{IsPrior, all_remembered, touched_by, is_told, news_of, may_have_news, news, other_database, database_news, tidings};

use crate::diagnostics::{Showing, push_diagnostics_of};
use crate::located::uri_for;
use doc_texts::{Docs, PathSet, PriorTexts};
use lsp_answers::push_log;
use plain_mean::{Shown, ShownLists, database_fault, database_path};
use project_conf::ConfError;
use std::alloc::{AllocError, Global};
use text_lines::Encoding;
use uri_paths::Path;

/// What a message changed: what files showed before and show now, the texts that some had before, and the file that the
/// message opened or changed, if there is one.
#[derive(Clone, Copy)]
pub(crate) struct Change<'a> {
    pub before: &'a ShownLists,
    pub after: &'a ShownLists,
    pub prior: &'a PriorTexts,
    pub touched: Option<&'a Path>,
}

fn same_fault(a: &Shown, b: &Shown) -> bool
    ensures { result ≡ same_fault a.now b.now }
{
    a.start == b.start && a.end == b.end && a.rule == b.rule && a.text.as_str() == b.text.as_str()
}

fn same_list(a: &[Shown], b: &[Shown]) -> bool
    ensures { result ≡ same_list a.now b.now }
{
    let mut rest = a;
    let mut others = b;
    'faults: while let Some((a, behind)) = rest.split_first() {
        rest = behind;
        let Some((b, behind)) = others.split_first() else {
            return false;
        };
        others = behind;
        if !same_fault(a, b) {
            return false;
        }
    }
    others.is_empty()
}

/// Whether a file has news, by what it showed, what it shows and whether its text differs.
fn has_news(before: &[Shown], after: &[Shown], text_differs: bool) -> bool
    ensures { result ≡ has_news before.now after.now text_differs }
{
    !same_list(before, after) || (text_differs && !after.is_empty())
}

/// Writes the diagnostics of a file, which shows these faults, behind what is written.
#[tactic(auto, unfolding(crate::specs::Shown::publication))]
fn push_shown(
    alloc: Global,
    out: &mut Vec<u8>,
    docs: &Docs,
    encoding: Encoding,
    path: &Path,
    faults: &[Shown],
) -> Result<(), AllocError>
    requires within { AreWithin (length (text_in docs.now path.now)) faults.now }
    ensures { OnOk result (out.new.items ≡ out.old.items ++ publication encoding docs.now faults.now path.now) }
{
    let text = text_of(docs, path);
    let uri = uri_for(alloc, docs, path)?;
    let showing = Showing {
        uri: uri.as_str(),
        version: docs.version(path),
        text,
        faults,
    };
    push_diagnostics_of(alloc, out, encoding, showing)
}

/// The text of a file, empty where it has none.
fn text_of<'a>(docs: &'a Docs, path: &Path) -> &'a str
    ensures text { result.now ≡ unwrap_or (text_at docs.now path.now) [] }
    ensures short { length result.now ≤ 4290772992 }
{
    match docs.text(path) {
        Some(text) => text,
        None => "",
    }
}

fn is_touched(touched: Option<&Path>, path: &Path) -> bool
    ensures { result ≡ list_any (bytes_eq path.now) (touched_by (option_map (λ p. p.now) touched.entry)) }
{
    match touched {
        Some(touched) => path.as_str() == touched.as_str(),
        None => false,
    }
}

/// Whether the diagnostics of a file are published.
fn is_told(docs: &Docs, change: Change<'_>, path: &Path) -> bool
    ensures { result ≡ is_told (touched_by (option_map (λ p. p.now) change.entry.touched)) (shown_in change.entry.before.now) (shown_in change.entry.after.now) change.entry.prior.now docs.now path.now }
{
    let text_differs = change.prior.is_changed(docs, path);
    has_news(change.before.of(path), change.after.of(path), text_differs)
        || is_touched(change.touched, path)
}

/// Writes the diagnostics of a file where they are published.
fn push_news_of(
    alloc: Global,
    out: &mut Vec<u8>,
    docs: &Docs,
    encoding: Encoding,
    change: Change<'_>,
    path: &Path,
) -> Result<(), AllocError>
    requires within { (q : List ℕ) → AreWithin (length (text_in docs.now q)) (shown_in change.after.now q) }
    ensures { OnOk result (out.new.items ≡ out.old.items ++ news_of (touched_by (option_map (λ p. p.now) change.entry.touched)) encoding (shown_in change.entry.before.now) (shown_in change.entry.after.now) change.entry.prior.now docs.now path.now) }
{
    if !is_told(docs, change, path) {
        return Ok(());
    }
    push_shown(alloc, out, docs, encoding, path, change.after.of(path))
}

fn add_paths(set: &mut PathSet, paths: Vec<Path>) -> Result<(), AllocError>
    ensures { OnOk result (set.new ≡ add_all set.old paths.items) }
{
    'paths: for path in paths {
        set.insert(path)?;
    }
    Ok(())
}

/// The files that may have news, in order of path: those that have a text now, and those that had one.
fn may_have_news(alloc: Global, docs: &Docs, prior: &PriorTexts) -> Result<Vec<Path>, AllocError>
    ensures { IfOk result (λ paths. paths.items ≡ may_have_news prior.now docs.now) }
{
    let mut set = PathSet::new(alloc);
    add_paths(&mut set, prior.paths()?)?;
    add_paths(&mut set, docs.paths()?)?;
    set.paths()
}

/// Writes the diagnostics of the files that have news, and of the one that was opened or changed, in order of path.
fn push_news(
    alloc: Global,
    out: &mut Vec<u8>,
    docs: &Docs,
    encoding: Encoding,
    change: Change<'_>,
) -> Result<(), AllocError>
    requires within { (q : List ℕ) → AreWithin (length (text_in docs.now q)) (shown_in change.after.now q) }
    ensures { OnOk result (out.new.items ≡ out.old.items ++ news (touched_by (option_map (λ p. p.now) change.entry.touched)) encoding (shown_in change.entry.before.now) (shown_in change.entry.after.now) change.entry.prior.now docs.now) }
{
    let paths = may_have_news(alloc, docs, change.prior)?;
    let mut rest = paths.as_slice();
    'files: while let Some((path, behind)) = rest.split_first() {
        rest = behind;
        push_news_of(alloc, out, docs, encoding, change, path)?;
    }
    Ok(())
}

/// Whether the database has another text than the one that is kept for it.
pub(crate) fn other_database(
    alloc: Global,
    docs: &Docs,
    prior: &PriorTexts,
) -> Result<bool, AllocError>
    ensures { IfOk result (λ differs. differs ≡ other_database prior.now docs.now) }
{
    match database_path(alloc, docs.root())? {
        Some(path) => Ok(prior.is_changed(docs, &path)),
        None => Ok(false),
    }
}

/// Logs why the database is faulty.
fn push_fault(alloc: Global, out: &mut Vec<u8>, error: ConfError) -> Result<(), AllocError>
    ensures { OnOk result (out.new.items ≡ out.old.items ++ log (codes "compile_commands: " ++ refusal error)) }
{
    let name = error.name();
    let text = format!(in alloc; "compile_commands: {name}")?;
    push_log(alloc, out, text.as_str())
}

/// Logs why the database is faulty, where it has another text than before.
#[tactic(auto, unfolding(crate::specs::Ties::News::database_news))]
fn push_database(
    alloc: Global,
    out: &mut Vec<u8>,
    docs: &Docs,
    prior: &PriorTexts,
) -> Result<(), AllocError>
    ensures { OnOk result (out.new.items ≡ out.old.items ++ database_news prior.now docs.now) }
{
    if !other_database(alloc, docs, prior)? {
        return Ok(());
    }
    match database_fault(alloc, docs)? {
        Some(error) => push_fault(alloc, out, error),
        None => Ok(()),
    }
}

/// Writes why the database is faulty, where it has another text than before, and the diagnostics of the files that have news, and of the
/// one that was opened or changed, in order of path.
pub(crate) fn push_tidings(
    alloc: Global,
    out: &mut Vec<u8>,
    docs: &Docs,
    encoding: Encoding,
    change: Change<'_>,
) -> Result<(), AllocError>
    requires within { (q : List ℕ) → AreWithin (length (text_in docs.now q)) (shown_in change.after.now q) }
    ensures { OnOk result (out.new.items ≡ out.old.items ++ tidings (touched_by (option_map (λ p. p.now) change.entry.touched)) encoding (shown_in change.entry.before.now) (shown_in change.entry.after.now) change.entry.prior.now docs.now) }
{
    push_database(alloc, out, docs, change.prior)?;
    push_news(alloc, out, docs, encoding, change)?;
    Ok(())
}

/// The texts before the session began with other ones, of all files that have a text in either.
pub(crate) fn prior_of(alloc: Global, old: &Docs, new: &Docs) -> Result<PriorTexts, AllocError>
    ensures { IfOk result (λ prior. IsPrior old.now prior new.now) }
{
    let mut prior = PriorTexts::new(alloc);
    let paths = old.paths()?;
    remember_all(&mut prior, old, paths.as_slice())?;
    let paths = new.paths()?;
    remember_all(&mut prior, old, paths.as_slice())?;
    Ok(prior)
}

/// Remembers the texts of these files.
fn remember_all(prior: &mut PriorTexts, docs: &Docs, paths: &[Path]) -> Result<(), AllocError>
    ensures { OnOk result (prior.new ≡ all_remembered prior.old docs.now paths.now) }
{
    let mut rest = paths;
    'files: while let Some((path, behind)) = rest.split_first() {
        rest = behind;
        prior.remember(docs, path)?;
    }
    Ok(())
}
