// What the texts of a session come to.
ghost use Rattle.std.specs.Prelude.{◌≡◌, ◌+◌, ◌≤◌, length, sum_by};
ghost use Rattle.plain_mean.specs.Lists.{shown_in};

use plain_mean::ShownLists;
use uri_paths::Path;

/// What the texts of a session come to.
#[derive(Clone, Copy, Debug, PartialEq, Eq)]
pub struct Counts {
    /// How many units there are, at most 1,024.
    pub units: u32,
    /// How many faults all files show. A fault of a header that several units read counts once.
    pub faults: u128,
}

/// How many faults some files show. A list and the paths are each shorter than 2^64, so that no sum is too large.
#[tactic(auto, using(crate::proofs::Counting::one_more))]
pub(crate) fn fault_count(shown: &ShownLists, paths: &[Path]) -> u128
    ensures { result ≡ sum_by (λ path. length (shown_in shown.now path)) paths.now }
{
    let mut total: u128 = 0;
    let mut rest = paths;
    'paths: while let Some((path, behind)) = rest.split_first() {
        rest = behind;
        total += shown.of(path).len() as u128;
    }
    total
}
