// Calls of `Docs`, one a line of standard input, with what each answers and leaves.
//
//   root|PATH                          no texts, under this root
//   fill|FILES|LETTERS                 files PATH/0, PATH/1, .. under /p, each with so many letters on disk
//   PATH|load|TEXT                     a text on disk
//   PATH|load-letters|LETTERS          a text of so many `a` on disk
//   PATH|load-bad                      bytes on disk that are no text
//   PATH|unload                        no text on disk any more
//   PATH|open|VERSION|TEXT             an open document
//   PATH|open-letters|LETTERS          an open document of so many `a`
//   PATH|change|VERSION|FROM,TO,TEXT.. changes of the first line, from one character to another, in order
//   PATH|rewrite|LETTERS               changes of the whole text to so many `a`, and then to `int a;`
//   PATH|close                         the document is closed
//   rename|NAME|PATH,FROM-TO..|..      the texts with a name in place of ranges of their bytes, which nothing else sees
#![tactic(auto)]

use doc_texts::{ByteRange, DocError, Docs, TextEdits};
use std::alloc::{AllocError, Global};
use std::io;
use std::io::Read;
use std::str::Split;
use text_lines::{Change, ChangeText, Encoding, Pos};
use uri_paths::Path;

fn number(word: Option<&str>) -> u32 {
    match word.unwrap_or("").parse::<u32>() {
        Ok(number) => number,
        Err(_) => 0,
    }
}

fn version(word: Option<&str>) -> i32 {
    match word.unwrap_or("").parse::<i32>() {
        Ok(version) => version,
        Err(_) => 0,
    }
}

/// So many letters, as a text.
fn letters(alloc: Global, count: u32) -> Result<String, AllocError> {
    let bytes = vec![in alloc; b'a'; count as usize]?;
    match String::from_utf8(bytes) {
        Ok(text) => Ok(text),
        Err(_) => Ok(String::new(alloc)),
    }
}

fn whole(alloc: Global, text: &str) -> Result<Change, AllocError> {
    let text = ChangeText::from_string(String::from_str(alloc, text)?);
    Ok(Change { range: None, text })
}

/// A change of the first line, as `FROM,TO,TEXT`.
fn part(alloc: Global, word: &str) -> Result<Change, AllocError> {
    let mut words = word.split(',');
    let from = number(words.next());
    let to = number(words.next());
    let text = words.next().unwrap_or("");
    let start = Pos {
        line: 0,
        character: from,
    };
    let end = Pos {
        line: 0,
        character: to,
    };
    let text = ChangeText::from_string(String::from_str(alloc, text)?);
    Ok(Change {
        range: Some((start, end)),
        text,
    })
}

fn parts(alloc: Global, words: &mut Split<'_, char>) -> Result<Vec<Change>, AllocError> {
    let mut changes = Vec::new(alloc);
    for word in words {
        changes.push(part(alloc, word)?)?;
    }
    Ok(changes)
}

fn rewrite(
    alloc: Global,
    docs: &mut Docs,
    path: &Path,
    count: u32,
) -> Result<Result<(), DocError>, AllocError> {
    let text = letters(alloc, count)?;
    let mut changes = Vec::new(alloc);
    changes.push(whole(alloc, text.as_str())?)?;
    changes.push(whole(alloc, "int a;")?)?;
    Ok(docs.change(path, 9, &changes, Encoding::Utf8))
}

/// Makes the call that the words behind the path name.
fn make(
    alloc: Global,
    docs: &mut Docs,
    path: &Path,
    words: &mut Split<'_, char>,
) -> Result<Result<(), DocError>, AllocError> {
    match words.next().unwrap_or("") {
        "load" => Ok(docs.load(path, Some(words.next().unwrap_or("").as_bytes()))),
        "load-letters" => {
            let text = letters(alloc, number(words.next()))?;
            Ok(docs.load(path, Some(text.as_bytes())))
        }
        "load-bad" => Ok(docs.load(path, Some(b"\xff"))),
        "unload" => Ok(docs.load(path, None)),
        "open" => {
            let version = version(words.next());
            Ok(docs.open_doc(path, "file:///p/%61", version, words.next().unwrap_or("")))
        }
        "open-letters" => {
            let text = letters(alloc, number(words.next()))?;
            Ok(docs.open_doc(path, "", 1, text.as_str()))
        }
        "change" => {
            let version = version(words.next());
            let changes = parts(alloc, words)?;
            Ok(docs.change(path, version, &changes, Encoding::Utf16))
        }
        "rewrite" => rewrite(alloc, docs, path, number(words.next())),
        _ => Ok(docs.close_doc(path)),
    }
}

/// What stands at a path.
fn show(rt: &HostRuntime, docs: &Docs, path: &Path, answer: &str) -> io::Result<()> {
    match docs.text(path) {
        Some(text) if text.len() < 100 => print!(rt; "{answer}, \"{text}\"")?,
        Some(text) => print!(rt; "{answer}, {} bytes", text.len())?,
        None => print!(rt; "{answer}, no text")?,
    }
    match docs.version(path) {
        Some(version) => println!(rt; ", version {version}"),
        None => println!(rt; ""),
    }
}

/// Loads so many files of so many letters.
fn fill(rt: &HostRuntime, docs: &mut Docs, files: u32, count: u32) -> io::Result<()> {
    let text = letters(rt.alloc(), count)?;
    let mut refused: u64 = 0;
    for file in 0..files {
        let name = format!(in rt.alloc(); "/p/{file}")?;
        match Path::read(rt.alloc(), name.as_str())? {
            Some(path) => {
                if docs.load(&path, Some(text.as_bytes())).is_err() {
                    refused = refused.saturating_add(1);
                }
            }
            None => println!(rt; "no path")?,
        }
    }
    println!(rt; "{refused} refused")
}

fn call(
    rt: &HostRuntime,
    docs: &mut Docs,
    name: &str,
    words: &mut Split<'_, char>,
) -> io::Result<()> {
    let Some(path) = Path::read(rt.alloc(), name)? else {
        println!(rt; "no path")?;
        return Ok(());
    };
    match make(rt.alloc(), docs, &path, words)? {
        Ok(()) => show(rt, docs, &path, "done"),
        Err(reason) => show(rt, docs, &path, reason.name()),
    }
}

/// A range of bytes, as `FROM-TO`.
fn range(word: &str) -> ByteRange {
    let mut words = word.split('-');
    let start = number(words.next());
    let end = number(words.next());
    ByteRange { start, end }
}

/// Ranges of a text, as `PATH,FROM-TO..`.
fn text_edits(alloc: Global, word: &str) -> Result<Option<TextEdits>, AllocError> {
    let mut words = word.split(',');
    let Some(path) = Path::read(alloc, words.next().unwrap_or(""))? else {
        return Ok(None);
    };
    let mut ranges = Vec::new(alloc);
    for word in words {
        ranges.push(range(word))?;
    }
    Ok(Some(TextEdits { path, ranges }))
}

fn all_edits(alloc: Global, words: &mut Split<'_, char>) -> Result<Vec<TextEdits>, AllocError> {
    let mut edits = Vec::new(alloc);
    for word in words {
        if let Some(of_one) = text_edits(alloc, word)? {
            edits.push(of_one)?;
        }
    }
    Ok(edits)
}

/// What stands at the paths of edits once these are made.
fn rename(rt: &HostRuntime, docs: &Docs, words: &mut Split<'_, char>) -> io::Result<()> {
    let name = words.next().unwrap_or("");
    let edits = all_edits(rt.alloc(), words)?;
    if name.len() > 1_023 {
        return println!(rt; "too long a name");
    }
    if !docs.can_be_edited(&edits) {
        return println!(rt; "can't be made");
    }
    let made = docs.edited(&edits, name)?;
    for of_one in &edits {
        show(rt, &made, &of_one.path, of_one.path.as_str())?;
    }
    Ok(())
}

fn turn(rt: &HostRuntime, docs: &mut Docs, line: &str) -> io::Result<()> {
    println!(rt; "> {line}")?;
    let mut words = line.split('|');
    let first = words.next().unwrap_or("");
    match first {
        "root" => {
            let root = Path::read(rt.alloc(), words.next().unwrap_or(""))?;
            *docs = Docs::new(rt.alloc(), root);
            Ok(())
        }
        "fill" => {
            let files = number(words.next());
            let count = number(words.next());
            fill(rt, docs, files, count)
        }
        "rename" => rename(rt, docs, &mut words),
        _ => call(rt, docs, first, &mut words),
    }
}

fn main(rt: HostRuntime) -> io::Result<()> {
    let mut text = String::new(rt.alloc());
    rt.stdin().read_to_string(&mut text)?;
    let mut docs = Docs::new(rt.alloc(), None);
    for line in text.lines() {
        turn(&rt, &mut docs, line)?;
    }
    Ok(())
}
