// The texts of the generated files.
ghost use Rattle.std.specs.Prelude.{◌≡◌, ◌+◌, ◌<◌, ◌++◌, decimal, string_bytes, codes, IfOk, OnOk};
ghost use Rattle.gen_project.specs.Script as spec;

use std::alloc::{AllocError, Global};

fn prototype(alloc: Global, k: u32) -> Result<String, AllocError>
    ensures { IfOk result (λ text. string_bytes text ≡ spec.prototype k) }
{
    format!(in alloc; "int f{k}(int);\n")
}

/// The text of the header, which declares so many functions.
pub(crate) fn header(alloc: Global, number: u32) -> Result<String, AllocError>
    ensures { IfOk result (λ text. string_bytes text ≡ spec.header number) }
{
    let mut text = String::new(alloc);
    let mut k = 0;
    'functions: while k < number {
        let line = prototype(alloc, k)?;
        text.push_str(line.as_str())?;
        k += 1;
    }
    Ok(text)
}

// The function that this one calls.
fn next(number: u32, k: u32) -> u32
    requires { k < number }
    ensures { result ≡ spec.next number k }
{
    if k + 1 == number { 0 } else { k + 1 }
}

fn unit_calling(alloc: Global, k: u32, called: u32, added: &str) -> Result<String, AllocError>
    ensures { IfOk result (λ text. string_bytes text ≡ spec.unit_calling k called added.now) }
{
    let mut text = format!(in alloc; "#include \"h.h\"\nint f{k}")?;
    text.push_str("(int x) { return f")?;
    let called = format!(in alloc; "{called}")?;
    text.push_str(called.as_str())?;
    text.push_str("(x) + ")?;
    text.push_str(added)?;
    text.push_str("; }\n")?;
    Ok(text)
}

/// The text of a unit, whose function gives what the next one gives, and what is added.
pub(crate) fn unit(alloc: Global, number: u32, k: u32, added: &str) -> Result<String, AllocError>
    requires { k < number }
    ensures { IfOk result (λ text. string_bytes text ≡ spec.unit number k added.now) }
{
    unit_calling(alloc, k, next(number, k), added)
}

/// Where a unit is.
pub(crate) fn unit_uri(alloc: Global, k: u32) -> Result<String, AllocError>
    ensures { IfOk result (λ uri. string_bytes uri ≡ spec.unit_uri k) }
{
    format!(in alloc; "file:///g/u{k}.c")
}
