// Conversations with a session: reads them from standard input and prints them with the replies. Between two
// conversations stands an empty line. A line `file PATH TEXT` puts a file into the store, `> CONTENT` hands a content to
// the session, and so does `% CONTENT`, in which `%` and two hexadecimal digits stand for a byte, as in TEXT. A line `<`
// is a content of the reply, and `end STATUS` says that the content ended the session.
#![tactic(auto)]

ghost use Rattle.std.specs.Prelude.{◌≡◌, ◌+◌, ◌<◌, length, IfOk};

mod replies;

use c_session::{Reply, Session, SessionError};
use io_edges::MemStore;
use percent_encoding::percent_decode;
use project_conf::Options;
use replies::contents_of;
use std::alloc::{AllocError, Global};
use std::io;
use std::io::Read;
use std::marker::Brand;
use std::sync::ledger::{Blank, Ledger};
use steps::Steps;

/// So many contents a session takes.
const MOST_CONTENTS: u64 = 1 << 62;

/// The bytes of a text in which `%` and two hexadecimal digits stand for a byte.
fn bytes_of(alloc: Global, text: &str) -> Result<Vec<u8>, AllocError> {
    let mut bytes = Vec::new(alloc);
    percent_decode(text.as_bytes()).append_to(&mut bytes)?;
    Ok(bytes)
}

/// The file of a line, a path and its bytes.
fn file_of(alloc: Global, line: &str) -> Result<Option<(String, Vec<u8>)>, AllocError> {
    let Some(file) = line.strip_prefix("file ") else {
        return Ok(None);
    };
    let (path, text) = file.split_once(' ').unwrap_or((file, ""));
    Ok(Some((String::from_str(alloc, path)?, bytes_of(alloc, text)?)))
}

/// The store of a conversation.
fn store_of(alloc: Global, talk: &str) -> Result<MemStore, AllocError>
    ensures { IfOk result (λ store. store.faults ≡ 0) }
{
    let mut files = Vec::new(alloc);
    for line in talk.lines() {
        if let Some(file) = file_of(alloc, line)? {
            files.push(file)?;
        }
    }
    Ok(MemStore::new(alloc, files, Vec::new(alloc)))
}

/// The content of a line.
fn content_of(alloc: Global, line: &str) -> Result<Option<Vec<u8>>, AllocError> {
    if let Some(content) = line.strip_prefix("> ") {
        return Ok(Some(Vec::from_slice(alloc, content.as_bytes())?));
    }
    match line.strip_prefix("% ") {
        Some(content) => Ok(Some(bytes_of(alloc, content)?)),
        None => Ok(None),
    }
}

fn push_line(out: &mut String, line: &str) -> Result<(), AllocError> {
    out.push_str(line)?;
    out.push('\n')
}

fn push_reply(alloc: Global, out: &mut String, reply: &Reply) -> Result<(), AllocError> {
    let contents = contents_of(alloc, reply.bytes.as_slice())?;
    out.push_str(contents.as_str())?;
    let Some(status) = reply.end else {
        return Ok(());
    };
    let end = format!(in alloc; "end {status}\n")?;
    out.push_str(end.as_str())
}

fn error_text(error: SessionError) -> &'static str {
    match error {
        SessionError::StoreFault => "store fault",
        SessionError::NoMemory => "no memory",
    }
}

/// A conversation with its replies.
fn transcript<L: Ledger>(alloc: Global, blank: Blank, talk: &String) -> Result<String, AllocError>
    requires name { blank.name ≡ L.name }
    requires parts { blank.parts ≡ L.parts }
    requires some { 0 < L.parts }
{
    let mut steps = Steps::<L>::open(blank);
    let mut store = store_of(alloc, talk)?;
    let mut session = Session::new(alloc, Options::none(alloc));
    let mut out = String::new(alloc);
    for line in talk.lines() {
        push_line(&mut out, line)?;
        let Some(content) = content_of(alloc, line)? else {
            continue;
        };
        if session.handled() >= MOST_CONTENTS {
            return Ok(out);
        }
        match session.handle(&content, &mut store, &mut steps) {
            Ok(reply) => push_reply(alloc, &mut out, &reply)?,
            Err(error) => {
                push_line(&mut out, error_text(error))?;
                return Ok(out);
            }
        }
    }
    Ok(out)
}

fn show(rt: &HostRuntime, talk: &str) -> io::Result<()> {
    let talk = String::from_str(rt.alloc(), talk)?;
    let text = transcript::<Brand>(rt.alloc(), Blank::new(1), &talk)?;
    let shown = text.as_str();
    println!(rt; "{shown}")
}

fn main(rt: HostRuntime) -> io::Result<()> {
    let mut text = String::new(rt.alloc());
    rt.stdin().read_to_string(&mut text)?;
    for talk in text.split("\n\n") {
        show(&rt, talk)?;
    }
    Ok(())
}
