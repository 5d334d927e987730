// The texts of the library headers (ISO C11 7) that `#include` finds where the project has none of that name. They stand
// in for the headers of a machine: declarations and macros alone.
#![tactic(auto)]

ghost use Rattle.std.specs.Prelude.{◌≡◌, bytes_eq, map, option_map};
ghost use Rattle.std.specs.List.{find};
ghost use Rattle.lib_texts.specs.Texts;

mod texts;

use crate::texts::{
    ASSERT, CTYPE, ERRNO, ISO646, LIMITS, STDALIGN, STDARG, STDBOOL, STDDEF, STDINT, STDIO, STDLIB,
    STDNORETURN, STRING,
};

#[derive(Clone, Copy, Debug, Drop)]
enum Header {
    Stddef,
    Stdint,
    Stdbool,
    Stdalign,
    Stdnoreturn,
    Iso646,
    Limits,
    Stdarg,
    Stdio,
    Stdlib,
    StringH,
    Ctype,
    Errno,
    Assert,
}

static HEADERS: [(&str, Header); 14] = [
    ("stddef.h", Header::Stddef),
    ("stdint.h", Header::Stdint),
    ("stdbool.h", Header::Stdbool),
    ("stdalign.h", Header::Stdalign),
    ("stdnoreturn.h", Header::Stdnoreturn),
    ("iso646.h", Header::Iso646),
    ("limits.h", Header::Limits),
    ("stdarg.h", Header::Stdarg),
    ("stdio.h", Header::Stdio),
    ("stdlib.h", Header::Stdlib),
    ("string.h", Header::StringH),
    ("ctype.h", Header::Ctype),
    ("errno.h", Header::Errno),
    ("assert.h", Header::Assert),
];

static NAMES: [&str; 14] = [
    "stddef.h",
    "stdint.h",
    "stdbool.h",
    "stdalign.h",
    "stdnoreturn.h",
    "iso646.h",
    "limits.h",
    "stdarg.h",
    "stdio.h",
    "stdlib.h",
    "string.h",
    "ctype.h",
    "errno.h",
    "assert.h",
];

/// The names of the headers, as an `#include` spells them between its delimiters, each once.
#[tactic(auto, unfolding(crate::specs::Texts::names, crate::specs::Texts::headers))]
pub fn names() -> &'static [&'static str]
    ensures { map (λ name. name.now) result.now ≡ Texts.names }
{
    &NAMES
}

fn find_in(table: &[(&str, Header)], name: &str) -> Option<Header>
    ensures { result ≡ option_map (λ e. e.1) (find (λ e. bytes_eq e.0.now name.now) table.now) }
{
    table.iter().find(|e| e.0 == name).map(|e| e.1)
}

fn header_named(name: &str) -> Option<Header>
    ensures { result ≡ Texts.header_named name.now }
{
    find_in(HEADERS.as_slice(), name)
}

fn text_of(header: Header) -> &'static str
    ensures { result.now ≡ Texts.text_of header }
{
    match header {
        Header::Stddef => STDDEF,
        Header::Stdint => STDINT,
        Header::Stdbool => STDBOOL,
        Header::Stdalign => STDALIGN,
        Header::Stdnoreturn => STDNORETURN,
        Header::Iso646 => ISO646,
        Header::Limits => LIMITS,
        Header::Stdarg => STDARG,
        Header::Stdio => STDIO,
        Header::Stdlib => STDLIB,
        Header::StringH => STRING,
        Header::Ctype => CTYPE,
        Header::Errno => ERRNO,
        Header::Assert => ASSERT,
    }
}

/// The text of the header of this name; none exactly where no header has it. It takes no memory.
pub fn library(name: &str) -> Option<&'static str>
    ensures { option_map (λ text. text.now) result ≡ Texts.library name.now }
{
    match header_named(name) {
        Some(header) => Some(text_of(header)),
        None => None,
    }
}
