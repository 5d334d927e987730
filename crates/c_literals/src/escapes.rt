// Escape sequences (ISO C11 6.4.4.4).
ghost use Rattle.std.specs.Prelude.{◌≡◌, ◌≤◌, ◌<◌, ℕ, List, [], ◌∷◌, ◌+◌, ◌-◌, length, drop, MatchOption};
ghost use Rattle.std.specs.Str.{chars};
ghost use Rattle.std.specs.Str.Parse.{digits_value, digits_value_after};
ghost use Rattle.c_literals.specs.CChars;
ghost use Rattle.c_literals.specs.Kept;
ghost use Rattle.c_literals.specs.Units.{one_unit, units_of};
ghost use Rattle.c_literals.specs.declared.prefix.Prefix.{Prefix};

/// The first code point of a text, and what follows it.
pub(crate) fn split_first_char(text: &str) -> Option<(char, &str)>
    ensures points { MatchOption result (chars text.now ≡ []) (λ r. chars text.now ≡ r.0 ∷ chars r.1.now) }
    ensures shorter { MatchOption result (length text.now ≡ 0) (λ r. length r.1.now < length text.now) }
{
    let mut chars = text.chars();
    let c = chars.next()?;
    Some((c, chars.as_str()))
}

// A value past the range of every unit is like any other such value, whatever digits follow it.
fn capped(value: u64) -> u64
    ensures same { (p : Prefix) (base : ℕ) (ds : List ℕ) → 1 ≤ base → one_unit p (digits_value_after base result ds) ≡ one_unit p (digits_value_after base value ds) }
    ensures bounded { result ≤ 4294967296 }
{
    if value < 0x1_0000_0000 {
        return value;
    }
    0x1_0000_0000
}

// How many digits stand at the front, `most` of them at most, their number, and what is behind them.
fn digits(base: u32, most: usize, text: &str) -> (usize, u64, &str)
    requires low { 2 ≤ base }
    requires high { base ≤ 16 }
    ensures count { result.0 ≡ length (CChars.digits base most (chars text.now)) }
    ensures value { (p : Prefix) → one_unit p result.1 ≡ one_unit p (digits_value base (CChars.digits base most (chars text.now))) }
    ensures behind { chars result.2.now ≡ drop (length (CChars.digits base most (chars text.now))) (chars text.now) }
    ensures shorter { length result.2.now ≤ length text.now }
{
    let mut left = most;
    let mut value: u64 = 0;
    let mut rest = text;
    loop {
        if left == 0 {
            return (most, value, rest);
        }
        let Some((c, behind)) = split_first_char(rest) else {
            return (most - left, value, rest);
        };
        let Some(digit) = c.to_digit(base) else {
            return (most - left, value, rest);
        };
        left -= 1;
        value = capped(value * base as u64 + digit as u64);
        rest = behind;
    }
}

#[tactic(auto, unfolding(crate::specs::CChars::simple))]
fn simple(c: char) -> Option<u64>
    ensures { (p : Prefix) → Kept.units_at p result ≡ units_of p (CChars.simple c) }
{
    match c {
        '\'' | '"' | '?' | '\\' => Some(c as u64),
        'a' => Some(7),
        'b' => Some(8),
        'f' => Some(12),
        'n' => Some(10),
        'r' => Some(13),
        't' => Some(9),
        'v' => Some(11),
        _ => None,
    }
}

// What a backslash begins whose next code point is `c`, with `behind` following it, and where no octal digit stands.
fn named(c: char, behind: &str) -> (Option<u64>, &str)
    requires { length (CChars.octal (c ∷ chars behind.now)) ≡ 0 }
    ensures value { (p : Prefix) → Kept.units_at p result.0 ≡ units_of p (CChars.escape (c ∷ chars behind.now)).c_char }
    ensures behind { chars result.1.now ≡ drop ((CChars.escape (c ∷ chars behind.now)).width - 1) (c ∷ chars behind.now) }
    ensures shorter { length result.1.now ≤ length behind.now }
{
    if c != 'x' {
        return (simple(c), behind);
    }
    let (count, value, rest) = digits(16, behind.len(), behind);
    if count == 0 {
        return (None, behind);
    }
    (Some(value), rest)
}

/// The value of the escape that a backslash begins, if it begins one, and what follows it, by what stands behind the
/// backslash.
pub(crate) fn escape(text: &str) -> (Option<u64>, &str)
    ensures value { (p : Prefix) → Kept.units_at p result.0 ≡ units_of p (CChars.escape (chars text.now)).c_char }
    ensures behind { chars result.1.now ≡ drop ((CChars.escape (chars text.now)).width - 1) (chars text.now) }
    ensures shorter { length result.1.now ≤ length text.now }
{
    let (count, value, rest) = digits(8, 3, text);
    if count != 0 {
        return (Some(value), rest);
    }
    match split_first_char(text) {
        Some((c, behind)) => named(c, behind),
        None => (None, text),
    }
}
