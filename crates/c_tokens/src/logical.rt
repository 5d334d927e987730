// Logical characters (ISO C11 5.1.1.2, phases 1 and 2), read from a text one after another.
ghost use Rattle.std.specs.Prelude.{◌≡◌, ℕ, [], ◌+◌, ◌^◌, ◌-◌, ◌<◌, ◌≤◌, length, slice_index, drop, IsSome, IfSome, IsTrue, false, IsUtf8, IsCharBoundary, MatchOption};
ghost use Rattle.std.specs.List.{prefix_len};
ghost use Rattle.c_tokens.specs.Logical;
ghost use Rattle.c_tokens.specs.Reading.{rest, IsNext, IsAlone};

/// What stands at a place of a text: a removed line end or a character (both with their width in bytes), or the
/// character that a trigraph sequence stands for.
#[derive(Clone, Copy, Drop)]
pub enum Unit {
    Removed(usize),
    Trigraph(u8),
    Plain(usize),
}

/// A logical character: its first byte in UTF-8, and where it begins and ends in the text, without what was
/// removed before it.
#[derive(Clone, Copy, Drop)]
pub struct Read {
    pub unit: Unit,
    pub code: u8,
    pub own: usize,
    pub end: usize,
}

#[tactic(auto, unfolding(crate::specs::Logical::trigraph))]
fn trigraph(third: u8) -> Option<u8>
    ensures value { result ≡ Logical.trigraph third }
    ensures ascii { IsSome result → (0 < third) × (third < 128) }
    ensures replacement { IfSome result (λ c. c < 128) }
{
    match third {
        b'=' => Some(b'#'),
        b'(' => Some(b'['),
        b'/' => Some(b'\\'),
        b')' => Some(b']'),
        b'\'' => Some(b'^'),
        b'<' => Some(b'{'),
        b'!' => Some(b'|'),
        b'>' => Some(b'}'),
        b'-' => Some(b'~'),
        _ => None,
    }
}

// The byte at a place, and 0 past the end.
fn byte_at(text: &[u8], at: usize) -> u8
    ensures { result ≡ slice_index text.now at }
{
    if at < text.len() { text[at] } else { 0 }
}

#[tactic(auto, unfolding(crate::specs::Logical::line_end_width))]
fn line_end_width(text: &[u8], at: usize) -> usize
    requires { at < 2 ^ 63 }
    ensures value { result ≡ Logical.line_end_width text.now at }
    ensures small { result ≤ 2 }
    ensures within { 0 < result → at + result ≤ length text.now }
    ensures ascii { 0 < result → slice_index text.now (at + result - 1) < 128 }
{
    match byte_at(text, at) {
        b'\n' => 1,
        b'\r' => if byte_at(text, at + 1) == b'\n' { 2 } else { 1 },
        _ => 0,
    }
}

#[tactic(auto, unfolding(crate::specs::Logical::begins_trigraph))]
fn begins_trigraph(text: &[u8]) -> bool
    ensures { result ≡ Logical.begins_trigraph text.now }
{
    byte_at(text, 0) == b'?' && byte_at(text, 1) == b'?'
}

#[tactic(auto, unfolding(crate::specs::Logical::backslash_width))]
fn backslash_width(text: &[u8]) -> usize
    ensures value { result ≡ Logical.backslash_width text.now }
    ensures small { result ≤ 3 }
{
    if byte_at(text, 0) == b'\\' {
        1
    } else if begins_trigraph(text) && byte_at(text, 2) == b'/' {
        3
    } else {
        0
    }
}

fn continues(byte: u8) -> bool
    ensures { result ≡ Logical.continues byte }
{
    128 <= byte && byte < 192
}

// How many bytes at the front continue a character.
fn continuing(text: &[u8]) -> usize
    ensures value { result ≡ prefix_len Logical.continues text.now }
    ensures within { result ≤ length text.now }
    ensures stops { result < length text.now → Logical.continues (slice_index text.now result) ≡ false }
{
    text.iter().take_while(|b| 128 <= **b && **b < 192).count()
}

fn plain(text: &[u8]) -> Unit
    requires { 0 < length text.now }
    ensures value { result ≡ Logical.plain text.now }
    ensures boundary { IsCharBoundary text.now (Logical.source_of result text.now).width }
{
    Unit::Plain(1 + continuing(text.split_at(1).1))
}

// What stands at the front where that may be a backslash or a trigraph sequence.
#[tactic(auto, unfolding(crate::specs::Logical::first_unit))]
fn marked_unit(text: &[u8]) -> Unit
    requires { 0 < length text.now }
    ensures value { result ≡ Logical.first_unit text.now }
    ensures replacement { Logical.IsReplacement result }
    ensures some { 0 < (Logical.source_of result text.now).width }
    ensures within { (Logical.source_of result text.now).width ≤ length text.now }
    ensures boundary { IsUtf8 text.now → IsCharBoundary text.now (Logical.source_of result text.now).width }
{
    let backslash = backslash_width(text);
    if 0 < backslash {
        let line_end = line_end_width(text, backslash);
        if 0 < line_end {
            return Unit::Removed(backslash + line_end);
        }
    }
    if begins_trigraph(text) {
        if let Some(character) = trigraph(byte_at(text, 2)) {
            return Unit::Trigraph(character);
        }
    }
    plain(text)
}

#[tactic(auto, unfolding(crate::specs::Logical::first_unit, crate::specs::Logical::backslash_width, crate::specs::Logical::begins_trigraph))]
fn first_unit(text: &[u8]) -> Unit
    requires { 0 < length text.now }
    ensures value { result ≡ Logical.first_unit text.now }
    ensures replacement { Logical.IsReplacement result }
    ensures some { 0 < (Logical.source_of result text.now).width }
    ensures within { (Logical.source_of result text.now).width ≤ length text.now }
    ensures boundary { IsUtf8 text.now → IsCharBoundary text.now (Logical.source_of result text.now).width }
{
    let first = byte_at(text, 0);
    if first == b'\\' || first == b'?' {
        return marked_unit(text);
    }
    plain(text)
}

/// Whether the byte at a place is a character as it stands: it begins no removed line end and no trigraph sequence, and
/// the byte behind it continues nothing.
#[inline(always)]
pub fn stands_alone(text: &[u8], at: usize) -> bool
    requires { at ≤ length text.now }
    ensures { IsTrue result → IsAlone text.now at }
{
    if text.len() - at < 2 {
        return false;
    }
    let byte = text[at];
    if byte == b'\\' || byte == b'?' {
        return false;
    }
    if continues(text[at + 1]) {
        return false;
    }
    true
}

/// The first logical character from a place on at which a unit begins, or none where only removed line ends are left.
#[inline(always)]
pub fn next_character(text: &[u8], at: usize) -> Option<Read>
    requires { at ≤ length text.now }
    ensures { MatchOption result (rest text.now at ≡ []) (IsNext text.now at) }
{
    if stands_alone(text, at) {
        return Some(Read {
            unit: Unit::Plain(1),
            code: text[at],
            own: at,
            end: at + 1,
        });
    }
    next_marked(text, at)
}

/// The same, unit by unit.
pub fn next_marked(text: &[u8], at: usize) -> Option<Read>
    requires { at ≤ length text.now }
    ensures { MatchOption result (rest text.now at ≡ []) (IsNext text.now at) }
{
    let mut own = at;
    while own < text.len() {
        let behind = text.split_at(own).1;
        let unit = first_unit(behind);
        match unit {
            Unit::Removed(width) => own += width,
            Unit::Trigraph(code) => return Some(Read {
                unit,
                code,
                own,
                end: own + 3,
            }),
            Unit::Plain(width) => return Some(Read {
                unit,
                code: behind[0],
                own,
                end: own + width,
            }),
        }
    }
    None
}
