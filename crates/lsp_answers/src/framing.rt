// A content behind its header (LSP 3.17, base protocol).
ghost use Rattle.std.specs.Prelude.{◌≡◌, ◌++◌, IfOk, OnOk};
ghost use Rattle.frame_form.specs.Written.{header_of, framed};

use std::alloc::{AllocError, Global};

/// Writes the header of a content of so many bytes behind what is written.
fn push_header(alloc: Global, out: &mut Vec<u8>, length: usize) -> Result<(), AllocError>
    ensures { OnOk result (out.new.items ≡ out.old.items ++ header_of length) }
{
    let header = format!(in alloc; "Content-Length: {length}\r\n\r\n")?;
    out.extend_from_slice(header.as_bytes())?;
    Ok(())
}

/// Writes a content behind its header, behind what is written.
pub fn push_framed(alloc: Global, out: &mut Vec<u8>, content: &str) -> Result<(), AllocError>
    ensures { OnOk result (out.new.items ≡ out.old.items ++ framed content.now) }
{
    push_header(alloc, out, content.len())?;
    out.extend_from_slice(content.as_bytes())?;
    Ok(())
}

/// A content behind its header.
pub(crate) fn framed(alloc: Global, content: &str) -> Result<Vec<u8>, AllocError>
    ensures { IfOk result (λ v. v.items ≡ framed content.now) }
{
    let mut out = Vec::new(alloc);
    push_framed(alloc, &mut out, content)?;
    Ok(out)
}
