// What comes of a unit, and what a file shows.
ghost use Rattle.std.specs.Prelude.{◌≡◌, IfOk};
ghost use Rattle.std.proofs.Common.{rules};
ghost use Rattle.std.specs.Cmp.{partial_order_from_own_ties};
ghost use Rattle.std.specs.Cmp.Lexicographic.{slice_cmp};
ghost use Rattle.std.specs.Cmp.Rules.{comparing};
ghost use Rattle.std.specs.Ordering.{nat_cmp, on, then_cmp, as_partial_cmp};

use include_units::{Paths, Wants};
use project_conf::UnitConf;
use shared_list::Listing;
use shared_text::Name;
use std::alloc::AllocError;
use std::cmp::Ordering;
use tok_data::ShownFault;
use uri_paths::Path;

/// Faults with their messages, in order.
pub type ShownFaults = Listing<ShownFault>;

/// What a unit means (ISO C11 5.1.1.1), and what it reads.
#[derive(Drop)]
pub struct UnitMeaning {
    /// What its items declare and denote, and its faults: those of preprocessing (6.10) in the order in which they were met, and behind them those of
    /// the items and of the unit's end (6.5 to 6.9). The number 2^32-1 of a token stands for the empty range at the front of its text.
    pub meaning: scope_tables::UnitMeaning,
    /// The paths whose texts were read, each once, in the order of their first entry; the unit's own first.
    pub reads: Paths,
}

/// What the meaning of a unit rests on: how the unit was read, and what it asked of files.
#[derive(Drop)]
pub struct Grounds {
    pub conf: UnitConf,
    /// Each question once, in the order in which they were asked.
    pub asked: Wants,
}

/// What a unit means, and what that rests on.
#[derive(Drop)]
pub struct Meant {
    pub meaning: UnitMeaning,
    pub grounds: Grounds,
}

/// A fault that a file shows. Faults are ordered by place, then rule, then message.
#[derive(Debug, PartialEq, Eq, Drop)]
pub struct Shown {
    /// The range in bytes of the file's text.
    pub start: u32,
    pub end: u32,
    /// The number of the rule that is broken.
    pub rule: u16,
    /// The message.
    pub text: Name,
}

impl Ord for Shown {
    ghost cmp = { then_cmp (on (λ s. s.start) nat_cmp) (then_cmp (on (λ s. s.end) nat_cmp) (then_cmp (on (λ s. s.rule) nat_cmp) (on (λ s. s.text) (slice_cmp nat_cmp)))) };

    ghost total = { Prim.search (comparing, rules) depth 9 };

    ghost matches_partial_cmp = { Prim.search (comparing, rules) depth 9 };

    ghost matches_eq = { Prim.search (comparing, rules) depth 9 };

    fn cmp(&self, other: &Shown) -> Ordering {
        self.start
            .cmp(&other.start)
            .then(self.end.cmp(&other.end))
            .then(self.rule.cmp(&other.rule))
            .then(self.text.cmp(&other.text))
    }
}

impl PartialOrd for Shown {
    ghost partial_cmp = { as_partial_cmp (then_cmp (on (λ s. s.start) nat_cmp) (then_cmp (on (λ s. s.end) nat_cmp) (then_cmp (on (λ s. s.rule) nat_cmp) (on (λ s. s.text) (slice_cmp nat_cmp))))) };

    ghost laws = { partial_order_from_own_ties (Prim.search (comparing, rules) depth 9) (Prim.search (comparing, rules) depth 9) };

    fn partial_cmp(&self, other: &Shown) -> Option<Ordering> {
        Some(self.cmp(other))
    }
}

/// What a file shows, in order.
pub type ShownList = Listing<Shown>;
