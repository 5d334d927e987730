// Inclusion (ISO C11 6.10.2): where an `#include` leads.
ghost use Rattle.std.specs.Prelude.{◌≡◌, ◌≤◌, ◌<◌, ◌+◌, ◌^◌, ◌++◌, ◌∷◌, [], IfOk, OnOk, IfSome, IsSome, length, slice_get, option_map, string_bytes};
ghost use Rattle.include_units.specs.Coming.{Leads, AtNeed};
ghost use Rattle.include_units.specs.Searches as searches;
ghost use Rattle.include_units.specs.Inclusion as spec;

use crate::made::Made;
use crate::own::OwnText;
use crate::runs::expanded_run;
use crate::stop::Stop;
use crate::texts::{Source, Text};
use crate::told::Told;
use crate::types::Paths;
use lib_texts::library;
use shared_text::Name;
use std::alloc::{AllocError, Global};
use tok_data::{OutToken, TokId};
use uri_paths::{Path, beside, within};

// Where a directive leads: on, or into a text, which is entered by this token.
#[derive(Debug, Drop)]
pub(crate) enum Lead {
    On,
    Into(Text, TokId),
}

// An `#include` that is looked for at these paths, from one of them on.
#[derive(Debug, Drop)]
pub(crate) struct Search {
    by: TokId,
    // The name with its delimiters, and without them.
    whole: Name,
    text: Name,
    paths: Paths,
    at: usize,
}

// Where a directive leads next.
#[derive(Debug, Drop)]
pub(crate) enum Next {
    Onward,
    Seeks(Search),
}

// A header name without its delimiters.
#[derive(Clone, Copy, Debug, Drop)]
struct Header<'a> {
    quoted: bool,
    text: &'a str,
}

fn push_spaced(out: &mut String, token: &OutToken) -> Result<(), AllocError>
    ensures { OnOk result (string_bytes out.new ≡ string_bytes out.old ++ spec.spaced token.now) }
{
    if token.space_before {
        out.push_str(" ")?;
        return out.push_str(token.spelling.as_str());
    }
    out.push_str(token.spelling.as_str())
}

// The spellings of tokens, joined by a space where white space stood, but before the first.
pub(crate) fn joined(alloc: Global, tokens: &[OutToken]) -> Result<String, AllocError>
    ensures { IfOk result (λ text. string_bytes text ≡ spec.joined tokens.now) }
{
    let Some((first, behind)) = tokens.split_first() else {
        return Ok(String::new(alloc))
    };
    let mut out = String::from_str(alloc, first.spelling.as_str())?;
    let mut rest = behind;
    while let Some((token, more)) = rest.split_first() {
        rest = more;
        push_spaced(&mut out, token)?;
    }
    Ok(out)
}

// What stands before the `>` that ends a text, where it stands there alone.
fn up_to_angle(text: &str) -> Option<&str>
    ensures { option_map (λ t. t.now) result ≡ spec.up_to 62 text.now }
{
    match text.split_once('>') {
        Some((front, behind)) => {
            if behind.is_empty() {
                return Some(front);
            }
            None
        }
        None => None,
    }
}

fn up_to_quote(text: &str) -> Option<&str>
    ensures { option_map (λ t. t.now) result ≡ spec.up_to 34 text.now }
{
    match text.split_once('"') {
        Some((front, behind)) => {
            if behind.is_empty() {
                return Some(front);
            }
            None
        }
        None => None,
    }
}

fn unless_empty(quoted: bool, text: Option<&str>) -> Option<Header<'_>>
    ensures { option_map spec.name_of result ≡ spec.unless_empty quoted (option_map (λ t. t.now) text.entry) }
{
    match text {
        Some(text) => {
            if text.is_empty() {
                return None;
            }
            Some(Header { quoted, text })
        }
        None => None,
    }
}

fn header_name(text: &str) -> Option<Header<'_>>
    ensures { option_map spec.name_of result ≡ spec.header_name text.now }
{
    if let Some(behind) = text.strip_prefix('<') {
        return unless_empty(false, up_to_angle(behind));
    }
    if let Some(behind) = text.strip_prefix('"') {
        return unless_empty(true, up_to_quote(behind));
    }
    None
}

fn is_absolute(text: &str) -> bool
    ensures { result ≡ spec.is_absolute text.now }
{
    text.starts_with('/')
}

fn add_path(paths: &mut Vec<Path>, path: Option<Path>) -> Result<(), AllocError>
    ensures { OnOk result (paths.new.items ≡ paths.old.items ++ spec.maybe path) }
{
    match path {
        Some(path) => {
            paths.push(path)?;
            Ok(())
        }
        None => Ok(()),
    }
}

fn add_beside(
    alloc: Global,
    quoted: bool,
    source: &Source,
    text: &str,
    paths: &mut Vec<Path>,
) -> Result<(), AllocError>
    ensures { OnOk result (paths.new.items ≡ paths.old.items ++ spec.beside_where quoted source.now text.now) }
{
    if !quoted {
        return Ok(());
    }
    match source {
        Source::File(file) => {
            let path = beside(alloc, file, text)?;
            add_path(paths, path)
        }
        Source::Own(_) => Ok(()),
    }
}

fn add_folders(
    alloc: Global,
    folders: &[Path],
    text: &str,
    paths: &mut Vec<Path>,
) -> Result<(), AllocError>
    ensures { OnOk result (paths.new.items ≡ paths.old.items ++ spec.in_folders folders.now text.now) }
{
    let mut rest = folders;
    while let Some((folder, behind)) = rest.split_first() {
        rest = behind;
        let path = within(alloc, folder, text)?;
        add_path(paths, path)?;
    }
    Ok(())
}

#[tactic(auto, using(crate::proofs::HeaderLemmas::root_is))]
fn add_absolute(alloc: Global, text: &str, paths: &mut Vec<Path>) -> Result<(), AllocError>
    ensures { OnOk result (paths.new.items ≡ paths.old.items ++ spec.maybe (spec.from_root text.now)) }
{
    match Path::read(alloc, "/") {
        Ok(Some(root)) => {
            let path = within(alloc, &root, text)?;
            add_path(paths, path)
        }
        Ok(None) => Ok(()),
        Err(error) => Err(error),
    }
}

// Where a name is looked for, in order.
fn candidates(
    alloc: Global,
    folders: &[Path],
    source: &Source,
    quoted: bool,
    text: &str,
) -> Result<Vec<Path>, AllocError>
    ensures { IfOk result (λ paths. paths.items ≡ spec.candidates folders.now source.now (spec.name quoted text.now)) }
{
    let mut paths = Vec::new(alloc);
    if is_absolute(text) {
        add_absolute(alloc, text, &mut paths)?;
        return Ok(paths);
    }
    add_beside(alloc, quoted, source, text, &mut paths)?;
    add_folders(alloc, folders, text, &mut paths)?;
    Ok(paths)
}

fn lead_to_file(alloc: Global, by: &TokId, path: Path, made: &Made) -> Result<Lead, AllocError>
    ensures { IfOk result (λ lead. spec.led lead made.now ≡ spec.lead_to_file by.now path made.now) }
{
    if made.once.has(path.as_str()) {
        return Ok(Lead::On);
    }
    let name = Name::from_str(alloc, path.as_str())?;
    let by = by.copy()?;
    Ok(Lead::Into(
        Text {
            name,
            source: Source::File(path),
        },
        by,
    ))
}

fn is_read(name: &str, made: &Made) -> bool
    ensures { result ≡ spec.is_read name.now made.now }
{
    made.libraries.has(name) && name != "assert.h"
}

pub(crate) fn library_name(alloc: Global, name: &str) -> Result<Name, AllocError>
    ensures { IfOk result (λ text. text ≡ spec.library_name name.now) }
{
    let mut text = String::from_str(alloc, "<")?;
    text.push_str(name)?;
    text.push_str(">")?;
    Name::from_str(alloc, text.as_str())
}

fn lead_to_own(
    alloc: Global,
    by: &TokId,
    name: &str,
    text: &str,
    made: &mut Made,
) -> Result<Lead, AllocError>
    requires { length text.now ≤ 4290772992 }
    ensures { IfOk result (λ lead. spec.led lead made.new ≡ spec.lead_to_own by.now name.now text.now made.old) }
{
    if is_read(name, made) {
        return Ok(Lead::On);
    }
    made.libraries.push(name)?;
    let name = library_name(alloc, name)?;
    let own = OwnText::from_str(alloc, text)?;
    let by = by.copy()?;
    Ok(Lead::Into(
        Text {
            name,
            source: Source::Own(own),
        },
        by,
    ))
}

// The library text of this name.
pub(crate) fn library_of(text: &str) -> Option<&'static str>
    ensures value { option_map (λ t. t.now) result ≡ spec.library_of text.now }
    ensures short { IfSome result (λ t. length t.now ≤ 4290772992) }
{
    if is_absolute(text) {
        return None;
    }
    library(text)
}

fn lead_to(
    alloc: Global,
    by: &TokId,
    whole: &str,
    text: &str,
    found: Option<Path>,
    made: &mut Made,
) -> Result<Lead, AllocError>
    ensures { IfOk result (λ lead. spec.led lead made.new ≡ spec.lead_to by.now whole.now text.now found made.old) }
{
    if let Some(path) = found {
        return lead_to_file(alloc, by, path, made);
    }
    if let Some(own) = library_of(text) {
        return lead_to_own(alloc, by, text, own, made);
    }
    made.add_fault(alloc, 222, by, whole)?;
    Ok(Lead::On)
}

impl Search {
    // The path that is looked at next.
    pub(crate) fn path(&self) -> Option<&Path>
        ensures path { option_map (λ p. p.now) result ≡ slice_get self.now.paths self.now.at }
        ensures fits { IsSome result → self.now.at + 1 < 2 ^ 64 }
    {
        self.paths.as_slice().get(self.at)
    }

    // The search behind that path.
    pub(crate) fn behind(self) -> Search
        requires { self.at + 1 < 2 ^ 64 }
        ensures { result ≡ searches.behind self }
    {
        let Search {
            by,
            whole,
            text,
            paths,
            at,
        } = self;
        Search {
            by,
            whole,
            text,
            paths,
            at: at + 1,
        }
    }

    // Where it leads when a text is found, or none is.
    pub(crate) fn lead(
        &self,
        alloc: Global,
        found: Option<Path>,
        made: &mut Made,
    ) -> Result<Lead, AllocError>
        ensures { IfOk result (λ lead. spec.led lead made.new ≡ spec.lead_to self.now.by self.now.whole self.now.text found made.old) }
    {
        lead_to(
            alloc,
            &self.by,
            self.whole.as_str(),
            self.text.as_str(),
            found,
            made,
        )
    }
}

fn begun_search(
    alloc: Global,
    folders: &[Path],
    source: &Source,
    by: &TokId,
    whole: &str,
    header: Header<'_>,
) -> Result<Search, AllocError>
    ensures { IfOk result (λ search. search ≡ searches.begun folders.now source.now by.now whole.now (spec.name_of header.entry)) }
{
    let paths = candidates(alloc, folders, source, header.quoted, header.text)?;
    let by = by.copy()?;
    let whole = Name::from_str(alloc, whole)?;
    let text = Name::from_str(alloc, header.text)?;
    Ok(Search {
        by,
        whole,
        text,
        paths: Paths::from_vec(paths),
        at: 0,
    })
}

fn is_exploded(made: &Made) -> bool
    ensures { result ≡ spec.is_exploded made.now }
{
    if made.exploded {
        return true;
    }
    made.inclusion < 64
}

fn explode(alloc: Global, by: &TokId, made: &mut Made) -> Result<(), AllocError>
    ensures { OnOk result (made.new ≡ spec.exploded by.now made.old) }
{
    if made.exploded {
        return Ok(());
    }
    made.exploded = true;
    made.add_fault(alloc, 223, by, "")
}

fn include_name(
    alloc: Global,
    folders: &[Path],
    deep: bool,
    text: &Text,
    by: &TokId,
    whole: &str,
    header: Header<'_>,
    made: &mut Made,
) -> Result<Next, AllocError>
    ensures { IfOk result (λ next. spec.include_name folders.now deep text.now by.now whole.now (spec.name_of header.entry) made.old ≡ searches.next_left next made.new) }
{
    if is_exploded(made) {
        explode(alloc, by, made)?;
        return Ok(Next::Onward);
    }
    made.inclusion = made.inclusion.saturating_sub(64);
    if deep {
        let search = begun_search(alloc, folders, &text.source, by, whole, header)?;
        return Ok(Next::Seeks(search));
    }
    made.add_fault(alloc, 223, by, "")?;
    Ok(Next::Onward)
}

fn include_run(
    alloc: Global,
    folders: &[Path],
    deep: bool,
    text: &Text,
    directive: &OutToken,
    by: &TokId,
    tokens: &[OutToken],
    made: &mut Made,
) -> Result<Next, AllocError>
    ensures { IfOk result (λ next. spec.include_run folders.now deep text.now directive.now by.now (spec.run tokens.now made.old) ≡ searches.next_left next made.new) }
{
    let whole = joined(alloc, tokens)?;
    match header_name(whole.as_str()) {
        Some(header) => include_name(alloc, folders, deep, text, by, whole.as_str(), header, made),
        None => {
            made.add_fault(alloc, 221, &directive.site, "")?;
            Ok(Next::Onward)
        }
    }
}

// `#include`.
pub(crate) fn include_line(
    alloc: Global,
    folders: &[Path],
    files: &Told,
    deep: bool,
    text: &Text,
    directive: &OutToken,
    tokens: &[OutToken],
    made: &mut Made,
) -> Result<Next, Stop>
    ensures left { Leads files.now (spec.include_line folders.now deep text.now directive.now tokens.now made.old) (λ next. searches.next_left next made.new) result }
    ensures kept { AtNeed result (made.new ≡ made.old) }
{
    let Some((first, _)) = tokens.split_first() else {
        made.add_fault(alloc, 221, &directive.site, "")?;
        return Ok(Next::Onward);
    };
    match expanded_run(alloc, files, text, tokens, made) {
        Ok(run) => {
            let next = include_run(
                alloc,
                folders,
                deep,
                text,
                directive,
                &first.site,
                run.as_slice(),
                made,
            )?;
            Ok(next)
        }
        Err(stop) => Err(stop),
    }
}
