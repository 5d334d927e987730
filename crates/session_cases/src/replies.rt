// The contents of a reply.
ghost use Rattle.std.specs.Prelude.{◌≡◌, ◌+◌, ◌<◌, ◌^◌, length};

use lsp_framing::{FrameError, Frames};
use std::alloc::{AllocError, Global};

/// Adds a content behind `< `, or `? ` where it isn't UTF-8.
fn push_content(out: &mut String, content: Vec<u8>) -> Result<(), AllocError> {
    match String::from_utf8(content) {
        Ok(text) => {
            out.push_str("< ")?;
            out.push_str(text.as_str())?;
            out.push('\n')
        }
        Err(_) => out.push_str("? no text\n"),
    }
}

/// Adds the contents that are whole, a line each.
fn push_contents(frames: &mut Frames, out: &mut String) -> Result<(), AllocError>
    ensures { frames.new.place + length frames.new.bytes ≡ frames.old.place + length frames.old.bytes }
{
    loop {
        match frames.next() {
            Ok(Some(content)) => push_content(out, content)?,
            Err(FrameError::NoMemory) => return Err(AllocError),
            Err(_) => return out.push_str("? bad frame\n"),
            Ok(None) => return Ok(()),
        }
    }
}

/// The contents of the frames that these bytes are, a line each, and `? rest` where bytes are left over.
pub fn contents_of(alloc: Global, bytes: &[u8]) -> Result<String, AllocError> {
    let mut out = String::new(alloc);
    let mut frames = Frames::new(alloc);
    frames.feed(bytes)?;
    push_contents(&mut frames, &mut out)?;
    if !frames.idle() {
        out.push_str("? rest\n")?;
    }
    Ok(out)
}
