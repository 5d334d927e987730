// Whether two configurations, or the tokens of two texts, are the same.
ghost use Rattle.std.specs.Prelude.{◌≡◌, bytes_eq};
ghost use Rattle.std.specs.Cmp.Lexicographic.{pointwise};
ghost use Rattle.plain_mean.specs.Same.{same_conf, same_define, same_tokens};

use project_conf::{Define, UnitConf};
use tok_data::PpToken;
use uri_paths::Path;

#[tactic(auto, unfolding(crate::specs::Same::same_tokens))]
pub(crate) fn same_tokens(a: &[PpToken], b: &[PpToken]) -> bool
    ensures { result ≡ same_tokens a.now b.now }
{
    a == b
}

fn same_define(a: &Define, b: &Define) -> bool
    ensures { result ≡ same_define a.now b.now }
{
    match a {
        Define::Set(name, text) => match b {
            Define::Set(other, more) => name == other && text == more,
            Define::Unset(_) => false,
        },
        Define::Unset(name) => match b {
            Define::Set(_, _) => false,
            Define::Unset(other) => name == other,
        },
    }
}

fn same_defines(a: &[Define], b: &[Define]) -> bool
    ensures { result ≡ pointwise same_define a.now b.now }
{
    let mut left = a;
    let mut right = b;
    'defines: while let Some((one, behind)) = left.split_first() {
        left = behind;
        match right.split_first() {
            Some((other, rest)) => {
                right = rest;
                if !same_define(one, other) {
                    return false;
                }
            }
            None => return false,
        }
    }
    right.is_empty()
}

fn same_folders(a: &[Path], b: &[Path]) -> bool
    ensures { result ≡ pointwise bytes_eq a.now b.now }
{
    a == b
}

/// Whether two units are read alike.
#[tactic(auto, unfolding(crate::specs::Same::same_conf))]
pub(crate) fn same_conf(a: &UnitConf, b: &UnitConf) -> bool
    ensures { result ≡ same_conf a.now b.now }
{
    if a.file != b.file {
        return false;
    }
    if !same_folders(a.includes.as_slice(), b.includes.as_slice()) {
        return false;
    }
    same_defines(a.defines.as_slice(), b.defines.as_slice())
}
