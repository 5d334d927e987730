// The tokens of a unit (ISO C11 5.1.1.2p1, 6.10): its texts, part by part, with the conditionals that are open.
ghost use Rattle.std.specs.Prelude.{◌≡◌, ◌≤◌, ◌∷◌, ◌++◌, [], IfOk, OnOk, IfSome, length, option_map, string_bytes};
ghost use Rattle.include_units.specs.Coming.{Comes, Leads, AtNeed};
ghost use Rattle.include_units.specs.Conditionals.{stand};
ghost use Rattle.include_units.specs.Left as left;
ghost use Rattle.include_units.specs.Parted as parted;
ghost use Rattle.include_units.specs.Units as spec;

use crate::conditionals::{
    Opens, elif_group, else_group, endif_line, fault_where, if_group, ifdef_group,
};
use crate::definitions::{define_line, undef_line};
use crate::inclusion::{Next, include_line, joined};
use crate::made::Made;
use crate::own::OwnText;
use crate::runs::run_of;
use crate::shared::PpTokens;
use crate::stop::Stop;
use crate::texts::{Part, Source, Text};
use crate::tokens::{is_ident, is_word};
use crate::told::{Told, tokens_at};
use crate::types::{Entered, Want};
use project_conf::{Define, UnitConf};
use shared_text::Name;
use std::alloc::{AllocError, Global};
use tok_data::{FileId, OutToken, PpToken, TokId};
use uri_paths::Path;

// `#error`.
fn error_line(
    alloc: Global,
    name: &OutToken,
    tokens: &[OutToken],
    made: &mut Made,
) -> Result<(), AllocError>
    ensures { OnOk result (made.new ≡ spec.error_line name.now tokens.now made.old) }
{
    let text = joined(alloc, tokens)?;
    made.add_fault(alloc, 227, &name.site, text.as_str())
}

fn begins_once(tokens: &[OutToken]) -> bool
    ensures { result ≡ spec.begins_once tokens.now }
{
    match tokens.split_first() {
        Some((token, _)) => is_word("once", token),
        None => false,
    }
}

fn once_in(source: &Source, made: &mut Made) -> Result<(), AllocError>
    ensures { OnOk result (made.new ≡ spec.once_in source.now made.old) }
{
    match source {
        Source::File(path) => made.once.push(path.as_str()),
        Source::Own(_) => Ok(()),
    }
}

// `#pragma`.
fn pragma_line(text: &Text, tokens: &[OutToken], made: &mut Made) -> Result<(), AllocError>
    ensures { OnOk result (made.new ≡ spec.pragma_line text.now tokens.now made.old) }
{
    if begins_once(tokens) {
        return once_in(&text.source, made);
    }
    Ok(())
}

// A directive that is no part of a conditional and no `#include`, in a group that is taken.
#[tactic(auto, unfolding(crate::specs::Units::plain_line))]
fn plain_line(
    alloc: Global,
    text: &Text,
    name: &OutToken,
    tokens: &[OutToken],
    made: &mut Made,
) -> Result<(), AllocError>
    ensures { OnOk result (made.new ≡ spec.plain_line text.now name.now tokens.now made.old) }
{
    if is_word("define", name) {
        return define_line(alloc, name, tokens, made);
    }
    if is_word("undef", name) {
        return undef_line(alloc, name, tokens, made);
    }
    if is_word("error", name) {
        return error_line(alloc, name, tokens, made);
    }
    if is_word("pragma", name) {
        return pragma_line(text, tokens, made);
    }
    if is_word("line", name) {
        return Ok(());
    }
    made.add_fault(alloc, 221, &name.site, "")
}

#[tactic(auto, unfolding(crate::specs::Units::control_line))]
fn control_line(
    alloc: Global,
    folders: &[Path],
    files: &Told,
    deep: bool,
    text: &Text,
    name: &OutToken,
    tokens: &[OutToken],
    made: &mut Made,
) -> Result<Next, Stop>
    ensures left { Leads files.now (spec.control_line folders.now deep text.now name.now tokens.now made.old) (λ next. left.next_left next made.new) result }
    ensures kept { AtNeed result (made.new ≡ made.old) }
{
    if is_word("include", name) {
        return include_line(alloc, folders, files, deep, text, name, tokens, made);
    }
    plain_line(alloc, text, name, tokens, made)?;
    Ok(Next::Onward)
}

// A directive that is no part of a conditional.
fn other_line(
    alloc: Global,
    folders: &[Path],
    files: &Told,
    deep: bool,
    text: &Text,
    name: &OutToken,
    tokens: &[OutToken],
    opens: &Opens,
    made: &mut Made,
) -> Result<Next, Stop>
    ensures left { Leads files.now (spec.other_line folders.now deep text.now name.now tokens.now opens.now made.old) (λ next. left.walked_left opens.now next made.new) result }
    ensures kept { AtNeed result (made.new ≡ made.old) }
{
    if opens.is_taken() {
        return match control_line(alloc, folders, files, deep, text, name, tokens, made) {
            Ok(next) => Ok(next),
            Err(stop) => Err(stop),
        };
    }
    Ok(Next::Onward)
}

// `#ifdef`, `#ifndef`, `#else` and `#endif`.
#[tactic(auto, unfolding(crate::specs::Units::group_line))]
fn group_line(
    alloc: Global,
    name: &OutToken,
    tokens: &[OutToken],
    opens: &mut Opens,
    made: &mut Made,
) -> Result<(), AllocError>
    ensures { OnOk result (stand opens.new made.new ≡ spec.group_line name.now tokens.now opens.old made.old) }
{
    if is_word("ifdef", name) {
        return ifdef_group(alloc, name, true, tokens, opens, made);
    }
    if is_word("ifndef", name) {
        return ifdef_group(alloc, name, false, tokens, opens, made);
    }
    if is_word("else", name) {
        return else_group(alloc, name, tokens, opens, made);
    }
    endif_line(alloc, name, tokens, opens, made)
}

#[tactic(auto, unfolding(crate::specs::Units::is_group))]
fn is_group(name: &OutToken) -> bool
    ensures { result ≡ spec.is_group name.now }
{
    if is_word("ifdef", name) {
        return true;
    }
    if is_word("ifndef", name) {
        return true;
    }
    if is_word("else", name) {
        return true;
    }
    is_word("endif", name)
}

// A directive by its name.
#[tactic(auto, unfolding(crate::specs::Units::named_line))]
fn named_line(
    alloc: Global,
    folders: &[Path],
    files: &Told,
    deep: bool,
    text: &Text,
    name: &OutToken,
    tokens: &[OutToken],
    opens: &mut Opens,
    made: &mut Made,
) -> Result<Next, Stop>
    ensures left { Leads files.now (spec.named_line folders.now deep text.now name.now tokens.now opens.old made.old) (λ next. left.walked_left opens.new next made.new) result }
    ensures kept { AtNeed result ((opens.new ≡ opens.old) × (made.new ≡ made.old)) }
{
    if is_word("if", name) {
        return match if_group(alloc, files, text, name, tokens, opens, made) {
            Ok(()) => Ok(Next::Onward),
            Err(stop) => Err(stop),
        };
    }
    if is_word("elif", name) {
        return match elif_group(alloc, files, text, name, tokens, opens, made) {
            Ok(()) => Ok(Next::Onward),
            Err(stop) => Err(stop),
        };
    }
    if is_group(name) {
        group_line(alloc, name, tokens, opens, made)?;
        return Ok(Next::Onward);
    }
    other_line(alloc, folders, files, deep, text, name, tokens, opens, made)
}

fn goes_on(name: &OutToken) -> bool
    ensures { result ≡ spec.goes_on name.now }
{
    is_word("elif", name) || is_word("else", name) || is_word("endif", name)
}

// The group in which a directive stands is taken.
pub(crate) fn stands_taken(name: &OutToken, opens: &Opens) -> bool
    ensures { result ≡ spec.stands_taken name.now opens.now }
{
    if goes_on(name) {
        return opens.is_outer_taken();
    }
    opens.is_taken()
}

fn directive(
    alloc: Global,
    folders: &[Path],
    files: &Told,
    deep: bool,
    text: &Text,
    hash: &OutToken,
    tokens: &[OutToken],
    opens: &mut Opens,
    made: &mut Made,
) -> Result<Next, Stop>
    ensures left { Leads files.now (parted.directive_behind folders.now deep text.now hash.now tokens.now opens.old made.old) (λ next. left.walked_left opens.new next made.new) result }
    ensures kept { AtNeed result ((opens.new ≡ opens.old) × (made.new ≡ made.old)) }
{
    let Some((name, behind)) = tokens.split_first() else {
        return Ok(Next::Onward);
    };
    if is_ident(name.kind) {
        return named_line(alloc, folders, files, deep, text, name, behind, opens, made);
    }
    fault_where(alloc, opens.is_taken(), 221, &hash.site, made)?;
    Ok(Next::Onward)
}

fn text_lines(
    alloc: Global,
    files: &Told,
    text: &Text,
    tokens: &[OutToken],
    opens: &Opens,
    made: &mut Made,
) -> Result<Next, Stop>
    ensures left { Leads files.now (parted.lines_behind text.now tokens.now opens.now made.old) (λ next. left.walked_left opens.now next made.new) result }
    ensures kept { AtNeed result (made.new ≡ made.old) }
{
    if !opens.is_taken() {
        return Ok(Next::Onward);
    }
    match run_of(alloc, files, text, tokens, made) {
        Ok(()) => Ok(Next::Onward),
        Err(stop) => Err(stop),
    }
}

// Reads a part of a text, whose open literals are shown, and says where it leads.
pub(crate) fn read_part(
    alloc: Global,
    folders: &[Path],
    files: &Told,
    deep: bool,
    text: &Text,
    part: &Part,
    opens: &mut Opens,
    made: &mut Made,
) -> Result<Next, Stop>
    ensures left { Leads files.now (parted.part_behind folders.now deep text.now part.now opens.old made.old) (λ next. left.walked_left opens.new next made.new) result }
    ensures kept { AtNeed result ((opens.new ≡ opens.old) × (made.new ≡ made.old)) }
{
    match part {
        Part::Run(tokens) => text_lines(alloc, files, text, tokens.as_slice(), opens, made),
        Part::Directive(hash, tokens) => directive(
            alloc,
            folders,
            files,
            deep,
            text,
            hash,
            tokens.as_slice(),
            opens,
            made,
        ),
    }
}

pub(crate) fn tokens_of(files: &Told, source: &Source) -> Result<PpTokens, Stop>
    ensures value { Comes files.now (spec.tokens_of source.now) (λ tokens. tokens) result }
    ensures short { IfOk result (λ tokens. length tokens ≤ 4290772992) }
{
    match source {
        Source::Own(text) => {
            let tokens = text.tokens().share()?;
            Ok(tokens)
        }
        Source::File(path) => match tokens_at(files, path) {
            Some(tokens) => {
                let tokens = tokens.share()?;
                Ok(tokens)
            }
            None => {
                let path = path.share()?;
                Err(Stop::Need(Want::Text(path)))
            }
        },
    }
}

fn read_in(source: &Source, made: &mut Made) -> Result<(), AllocError>
    ensures { OnOk result (made.new ≡ spec.read_in source.now made.old) }
{
    match source {
        Source::File(path) => made.add_read(path),
        Source::Own(_) => Ok(()),
    }
}

pub(crate) fn entering(
    text: &Text,
    by: TokId,
    tokens: &[PpToken],
    made: &mut Made,
) -> Result<(), AllocError>
    ensures { OnOk result (made.new ≡ spec.entering text.now by tokens.now made.old) }
{
    read_in(&text.source, made)?;
    made.inclusion = made.inclusion.saturating_sub(tokens.len());
    let file = FileId::from_name(text.name.share()?);
    made.entered.push(Entered { file, by })
}

// Texts may be entered at this depth.
pub(crate) fn is_deep(depth: u8) -> bool
    ensures { result ≡ spec.is_deep depth }
{
    0 < depth
}

fn push_define(out: &mut String, define: &Define) -> Result<(), AllocError>
    ensures { OnOk result (string_bytes out.new ≡ string_bytes out.old ++ spec.line_of define.now) }
{
    match define {
        Define::Set(name, text) => push_set(out, name.as_str(), text.as_str()),
        Define::Unset(name) => push_unset(out, name.as_str()),
    }
}

fn push_set(out: &mut String, name: &str, text: &str) -> Result<(), AllocError>
    ensures { OnOk result (string_bytes out.new ≡ string_bytes out.old ++ spec.set_line name.now text.now) }
{
    out.push_str("#define ")?;
    out.push_str(name)?;
    out.push_str(" ")?;
    out.push_str(text)?;
    out.push_str("\n")
}

fn push_unset(out: &mut String, name: &str) -> Result<(), AllocError>
    ensures { OnOk result (string_bytes out.new ≡ string_bytes out.old ++ spec.unset_line name.now) }
{
    out.push_str("#undef ")?;
    out.push_str(name)?;
    out.push_str("\n")
}

const GIVEN: &str =
    "#define __STDC__ 1\n#define __STDC_VERSION__ 201112L\n#define __STDC_HOSTED__ 1\n#define __STDC_NO_ATOMICS__ 1\n#define __STDC_NO_COMPLEX__ 1\n#define __STDC_NO_THREADS__ 1\n#define __STDC_NO_VLA__ 1\n#define __DATE__ \"Jan  1 1970\"\n#define __TIME__ \"00:00:00\"\n";

pub(crate) fn command_text(alloc: Global, defines: &[Define]) -> Result<String, AllocError>
    ensures { IfOk result (λ text. string_bytes text ≡ spec.command_text defines.now) }
{
    let mut out = String::from_str(alloc, GIVEN)?;
    let mut rest = defines;
    while let Some((define, behind)) = rest.split_first() {
        rest = behind;
        push_define(&mut out, define)?;
    }
    Ok(out)
}

pub(crate) fn file_of(alloc: Global, path: &Path) -> Result<Text, AllocError>
    ensures { IfOk result (λ text. text ≡ spec.file_of path.now) }
{
    let name = Name::from_str(alloc, path.as_str())?;
    let path = path.share()?;
    Ok(Text {
        name,
        source: Source::File(path),
    })
}
