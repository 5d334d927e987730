// A project: its texts, and what is answered about them.
ghost use Rattle.plain_mean.specs.Confs.{IsUsable};
ghost use Rattle.c_session.specs.Kept.{HasLexed};

use c_session::{Analysis, Question, answer};
use doc_texts::Docs;
use percent_encoding::percent_decode;
use project_conf::{Conf, Defines, IncludePaths};
use std::alloc::{AllocError, Global};
use std::str::Split;
use text_lines::{Encoding, Pos};
use uri_paths::Path;

/// The bytes of a text in which `%` and two hexadecimal digits stand for a byte.
fn bytes_of(alloc: Global, text: &str) -> Result<Vec<u8>, AllocError> {
    let mut bytes = Vec::new(alloc);
    percent_decode(text.as_bytes()).append_to(&mut bytes)?;
    Ok(bytes)
}

/// Puts a file on disk, where the texts take it.
fn load(alloc: Global, docs: &mut Docs, line: &str) -> Result<(), AllocError> {
    let (path, text) = line.split_once(' ').unwrap_or((line, ""));
    let bytes = bytes_of(alloc, text)?;
    if let Some(path) = Path::read(alloc, path)? {
        match docs.load(&path, Some(bytes.as_slice())) {
            Ok(()) => {}
            Err(_) => {}
        }
    }
    Ok(())
}

/// The texts of a project.
pub fn docs_of(alloc: Global, project: &str) -> Result<Docs, AllocError> {
    let mut docs = Docs::new(alloc, None);
    for line in project.lines() {
        if line.starts_with('/') {
            load(alloc, &mut docs, line)?;
        }
    }
    Ok(docs)
}

/// Units are the sources, read with no folders and definitions.
pub fn plain_conf(alloc: Global) -> Conf
    ensures { IsUsable result }
{
    Conf {
        root: None,
        includes: IncludePaths::from_vec(Vec::new(alloc)),
        defines: Defines::from_vec(Vec::new(alloc)),
        database: None,
    }
}

fn number(word: Option<&str>) -> u32 {
    match word.unwrap_or("").parse::<u32>() {
        Ok(number) => number,
        Err(_) => 0,
    }
}

fn push_line(out: &mut String, line: &str) -> Result<(), AllocError> {
    out.push_str(line)?;
    out.push('\n')
}

fn push_answer(
    out: &mut String,
    kept: &Analysis,
    docs: &Docs,
    path: &Path,
    question: Question,
) -> Result<(), AllocError>
    requires { HasLexed docs.now kept.now }
{
    let text = answer(kept, docs, Encoding::Utf16, path, question)?;
    push_line(out, text.as_str())
}

fn push_answers(
    out: &mut String,
    kept: &Analysis,
    docs: &Docs,
    path: &Path,
    pos: Pos,
) -> Result<(), AllocError>
    requires { HasLexed docs.now kept.now }
{
    push_answer(out, kept, docs, path, Question::Hover(pos))?;
    push_answer(out, kept, docs, path, Question::Definition(pos))?;
    push_answer(out, kept, docs, path, Question::References(pos, true))?;
    push_answer(out, kept, docs, path, Question::References(pos, false))?;
    push_answer(out, kept, docs, path, Question::Symbols)
}

/// The answers to the questions of a line.
fn ask(
    alloc: Global,
    out: &mut String,
    kept: &Analysis,
    docs: &Docs,
    line: &str,
) -> Result<(), AllocError>
    requires { HasLexed docs.now kept.now }
{
    let Some(words) = line.strip_prefix("? ") else {
        return Ok(());
    };
    let mut words: Split<'_, char> = words.split(' ');
    let Some(path) = Path::read(alloc, words.next().unwrap_or(""))? else {
        return push_line(out, "no path");
    };
    let line = number(words.next());
    let character = number(words.next());
    push_answers(out, kept, docs, &path, Pos { line, character })
}

pub fn ask_all(
    alloc: Global,
    kept: &Analysis,
    docs: &Docs,
    project: &str,
) -> Result<String, AllocError>
    requires { HasLexed docs.now kept.now }
{
    let mut out = String::new(alloc);
    for line in project.lines() {
        push_line(&mut out, line)?;
        ask(alloc, &mut out, kept, docs, line)?;
    }
    push_line(&mut out, "")?;
    Ok(out)
}
