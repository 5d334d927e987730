// The words of qualifiers, basic types and tags.
ghost use Rattle.std.specs.Prelude.{◌≡◌, ◌++◌, string_bytes, option_map, OnOk};
ghost use Rattle.type_print.specs.Names as spec;
ghost use Rattle.type_print.specs.Printed;

use std::alloc::AllocError;
use type_data::{Basic, Qual, TagId, TagInfo, TagKind, Tags};

pub(crate) fn basic_name(basic: Basic) -> &'static str
    ensures { result.now ≡ spec.basic_name basic }
{
    match basic {
        Basic::Bool => "_Bool",
        Basic::Char => "char",
        Basic::SChar => "signed char",
        Basic::UChar => "unsigned char",
        Basic::Short => "short",
        Basic::UShort => "unsigned short",
        Basic::Int => "int",
        Basic::UInt => "unsigned int",
        Basic::Long => "long",
        Basic::ULong => "unsigned long",
        Basic::LongLong => "long long",
        Basic::ULongLong => "unsigned long long",
        Basic::Float => "float",
        Basic::Double => "double",
        Basic::LongDouble => "long double",
    }
}

fn kind_name(kind: TagKind) -> &'static str
    ensures { result.now ≡ spec.kind_name kind }
{
    match kind {
        TagKind::Struct => "struct ",
        TagKind::Union => "union ",
        TagKind::Enum => "enum ",
    }
}

fn kind_in(kind: TagKind, info: Option<&TagInfo>) -> TagKind
    ensures { result ≡ spec.kind_in kind (option_map (λ i. i.now) info.entry) }
{
    match info {
        Some(info) => info.kind,
        None => kind,
    }
}

fn name_in(info: Option<&TagInfo>) -> &str
    ensures { result.now ≡ spec.name_in (option_map (λ i. i.now) info.entry) }
{
    let Some(info) = info else {
        return "<anonymous>";
    };
    match &info.name {
        Some(name) => name.as_str(),
        None => "<anonymous>",
    }
}

// Adds the name of a tag, of this kind where nothing is known of it.
pub(crate) fn push_tag(
    out: &mut String,
    kind: TagKind,
    tags: &Tags,
    id: &TagId,
) -> Result<(), AllocError>
    ensures { OnOk result (string_bytes out.new ≡ string_bytes out.old ++ spec.tag_in kind tags.now id.now) }
{
    let info = tags.get(id);
    out.push_str(kind_name(kind_in(kind, info)))?;
    out.push_str(name_in(info))
}

fn push_spaced_if(out: &mut String, holds: bool, word: &str) -> Result<(), AllocError>
    ensures { OnOk result (string_bytes out.new ≡ string_bytes out.old ++ spec.spaced (spec.word_if holds word.now)) }
{
    if holds {
        out.push_str(word)?;
        out.push_str(" ")?;
    }
    Ok(())
}

// Adds the words of qualifiers, each followed by a space.
#[tactic(auto, using(crate::proofs::Texts::spaced_words))]
pub(crate) fn push_spaced(out: &mut String, qual: Qual) -> Result<(), AllocError>
    ensures { OnOk result (string_bytes out.new ≡ string_bytes out.old ++ spec.spaced (spec.words qual)) }
{
    push_spaced_if(out, qual.is_const, "const")?;
    push_spaced_if(out, qual.is_restrict, "restrict")?;
    push_spaced_if(out, qual.is_volatile, "volatile")
}

pub(crate) fn has_words(qual: Qual) -> bool
    ensures { result ≡ spec.has_words qual }
{
    qual.is_const || qual.is_restrict || qual.is_volatile
}

// Adds a word, behind a space where a word stands before it.
fn push_parted_if(out: &mut String, holds: bool, first: bool, word: &str) -> Result<(), AllocError>
    ensures { OnOk result (string_bytes out.new ≡ string_bytes out.old ++ spec.parted_if holds first word.now) }
{
    if holds {
        if !first {
            out.push_str(" ")?;
        }
        out.push_str(word)?;
    }
    Ok(())
}

// Adds the words of qualifiers, parted by spaces.
pub(crate) fn push_parted(out: &mut String, qual: Qual) -> Result<(), AllocError>
    ensures { OnOk result (string_bytes out.new ≡ string_bytes out.old ++ spec.parted (spec.words qual)) }
{
    push_parted_if(out, qual.is_const, true, "const")?;
    push_parted_if(out, qual.is_restrict, !qual.is_const, "restrict")?;
    push_parted_if(
        out,
        qual.is_volatile,
        !(qual.is_const || qual.is_restrict),
        "volatile",
    )
}

pub(crate) fn unqualified() -> Qual
    ensures { result ≡ Printed.unqualified }
{
    Qual {
        is_const: false,
        is_restrict: false,
        is_volatile: false,
    }
}
