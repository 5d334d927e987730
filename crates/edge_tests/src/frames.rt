// Each input in pieces of several sizes, against frames that were computed apart from this crate.
ghost use Rattle.std.specs.Prelude.{◌≡◌, ◌+◌, ◌^◌, ◌<◌, length};

use crate::frame_cases::CASES;
use lsp_framing::{FrameError, Frames};
use std::alloc::{AllocError, Global};

/// The bytes of a text, in which `%` and two hexadecimal digits stand for a byte.
fn bytes_of(alloc: Global, text: &str) -> Result<Vec<u8>, AllocError> {
    let mut bytes = Vec::new(alloc);
    let mut rest = text.as_bytes();
    while let Some((byte, behind)) = rest.split_first() {
        rest = behind;
        if *byte == b'%' && rest.len() >= 2 {
            bytes.push(digit(rest[0]) * 16 + digit(rest[1]))?;
            rest = rest.split_at(2).1;
        } else {
            bytes.push(*byte)?;
        }
    }
    Ok(bytes)
}

fn digit(byte: u8) -> u8
    ensures { result < 16 }
{
    match byte {
        b'0'..=b'9' => byte - b'0',
        b'A'..=b'F' => byte - b'A' + 10,
        _ => 0,
    }
}

/// Adds the contents that are whole, with a `|` after each.
fn push_contents(frames: &mut Frames, out: &mut Vec<u8>) -> Result<(), AllocError>
    ensures { frames.new.place + length frames.new.bytes ≡ frames.old.place + length frames.old.bytes }
{
    loop {
        match frames.next() {
            Ok(Some(content)) => {
                out.extend_from_slice(&content)?;
                out.push(b'|')?;
            }
            Err(FrameError::NoMemory) => return Err(AllocError),
            _ => return Ok(()),
        }
    }
}

/// Adds what stands behind the whole frames.
fn push_rest(alloc: Global, frames: &mut Frames, out: &mut Vec<u8>) -> Result<(), AllocError> {
    match frames.next() {
        Ok(_) if frames.idle() => out.extend_from_slice(b"Empty"),
        Ok(_) => out.extend_from_slice(b"Open"),
        Err(FrameError::Fault { place, kind }) => {
            let text = format!(in alloc; "Bad {place} {}", kind.name())?;
            out.extend_from_slice(text.as_bytes())
        }
        Err(FrameError::NoMemory) => Err(AllocError),
    }
}

/// The contents of an input that is fed in pieces of `size` bytes, and what stands behind them.
fn frames_of(alloc: Global, input: &[u8], size: usize) -> Result<Vec<u8>, AllocError>
    requires some { 0 < size }
    requires fits { length input.now < 2 ^ 63 }
{
    let mut frames = Frames::new(alloc);
    let mut out = Vec::new(alloc);
    let mut rest = input;
    while !rest.is_empty() {
        let (piece, behind) = rest.split_at(size.min(rest.len()));
        rest = behind;
        frames.feed(piece)?;
        push_contents(&mut frames, &mut out)?;
    }
    push_rest(alloc, &mut frames, &mut out)?;
    Ok(out)
}

/// Whether an input's frames are the expected ones, whatever the pieces.
fn has_frames(alloc: Global, input: &[u8], expected: &[u8]) -> Result<bool, AllocError>
    requires { length input.now < 2 ^ 63 }
{
    for size in [1, 2, 3, 7, 4096] {
        let found = frames_of(alloc, input, size)?;
        if found.as_slice() != expected {
            return Ok(false);
        }
    }
    Ok(true)
}

#[test]
fn frames_of_cases(rt: HostRuntime) -> Result<(), AllocError> {
    let alloc = rt.alloc();
    for line in CASES.lines() {
        let Some((input, expected)) = line.split_once("] ") else {
            continue;
        };
        let input = bytes_of(alloc, input.strip_prefix("[").unwrap_or(""))?;
        let expected = bytes_of(alloc, expected)?;
        assert!(rt; has_frames(alloc, &input, &expected)?, "{line}");
    }
    Ok(())
}

/// A header part with a field of so many letters.
fn long_input(alloc: Global, letters: usize) -> Result<Vec<u8>, AllocError> {
    let mut input = Vec::from_slice(alloc, b"Content-Length: 2\r\nX:")?;
    for _ in 0..letters {
        input.push(b'a')?;
    }
    input.extend_from_slice(b"\r\n\r\n{}")?;
    Ok(input)
}

#[test]
fn frames_of_long_header(rt: HostRuntime) -> Result<(), AllocError> {
    let alloc = rt.alloc();
    let longest = long_input(alloc, 4_071)?;
    assert!(rt; has_frames(alloc, &longest, b"{}|Empty")?);
    let longer = long_input(alloc, 4_072)?;
    assert!(rt; has_frames(alloc, &longer, b"Bad 0 HeaderLong")?);
    Ok(())
}
