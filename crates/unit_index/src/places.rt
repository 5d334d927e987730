// Places of a list by the numbers that stand there.
ghost use Rattle.std.specs.Prelude.{◌≡◌, ◌+◌, ◌<◌, ◌≤◌, ℕ, List, drop, get_or, length, nat_eq, IfOk};
ghost use Rattle.std.specs.List.{slice_get};
ghost use Rattle.unit_index.specs.Chains.{first_from};
ghost use Rattle.unit_index.specs.Places as spec;

use std::alloc::{AllocError, Global};
use std::marker::Model;

#[derive(Drop)]
struct Links {
    codes: Vec<u32>,
    // By a remainder, the first place whose number leaves it; the list's length where there is none.
    firsts: Vec<u32>,
    // By a place, the next one whose number leaves the same remainder, or the list's length.
    nexts: Vec<u32>,
}

/// A list of numbers, of each of which the first place and from each place the next one of the same number are found at a cost that is constant on average. Contracts see the numbers.
#[derive(Drop)]
pub(crate) struct Places {
    links: Links,
}

impl Model for Places {
    ghost use Rattle.std.specs.Prelude.{ℕ, List};
    ghost use Rattle.unit_index.specs.Places.{AreLinked};

    ghost Value = { List ℕ };

    ghost view = { λ p. p.links.codes.items };

    ghost invariant = { λ p. AreLinked p.links.codes.items p.links.firsts.items p.links.nexts.items };
}

// For each remainder, that there is no place.
fn no_firsts(alloc: Global, count: u32, none: u32) -> Result<Vec<u32>, AllocError>
    ensures { IfOk result (λ firsts. spec.AreNone count none firsts.items) }
{
    let mut firsts = Vec::with_capacity(alloc, count as usize)?;
    let mut left = count;
    'places: while 0 < left {
        firsts.push(none)?;
        left -= 1;
    }
    Ok(firsts)
}

// The first place of each remainder, and from each place the next one of the same remainder.
fn linked(
    alloc: Global,
    codes: &[u32],
    count: u32,
    len: u32,
) -> Result<(Vec<u32>, Vec<u32>), AllocError>
    requires some { 0 < count }
    requires len { len ≡ length codes.now }
    ensures { IfOk result (λ r. spec.AreLinked codes.now r.0.items r.1.items) }
{
    let mut firsts = no_firsts(alloc, count, len)?;
    let mut nexts = Vec::with_capacity(alloc, codes.len())?;
    let mut rest = codes;
    'codes: while let Some((code, before)) = rest.split_last() {
        let remainder = (*code % count) as usize;
        nexts.push(firsts[remainder])?;
        firsts[remainder] = before.len() as u32;
        rest = before;
    }
    nexts.reverse();
    Ok((firsts, nexts))
}

// The first place of a number from this one on, where the number there leaves the same remainder.
fn seek(links: &Links, code: u32, from: u32) -> Option<usize>
    requires linked { spec.AreLinked links.now.codes.items links.now.firsts.items links.now.nexts.items }
    requires from { spec.IsLinkedTo (length links.now.firsts.items) links.now.codes.items code from }
    ensures { result ≡ first_from (nat_eq code) from (drop from links.now.codes.items) }
{
    let mut at = from as usize;
    'places: while let Some(found) = links.codes.get(at) {
        if *found == code {
            return Some(at);
        }
        at = links.nexts[at] as usize;
    }
    None
}

impl Places {
    /// These numbers. It fails for want of memory, and where there are 2^32 or more.
    pub(crate) fn of(alloc: Global, codes: Vec<u32>) -> Result<Places, AllocError>
        ensures { IfOk result (λ p. p ≡ codes.items) }
    {
        let Ok(len) = u32::try_from(codes.len()) else {
            return Err(AllocError);
        };
        let (firsts, nexts) = linked(alloc, codes.as_slice(), len / 2 + 1, len)?;
        let links = Links {
            codes,
            firsts,
            nexts,
        };
        Ok(Places { links })
    }

    /// The first place of a number.
    pub(crate) fn first(&self, code: u32) -> Option<usize>
        ensures { result ≡ first_from (nat_eq code) 0 self.now }
    {
        let remainder = code as usize % self.links.firsts.len();
        seek(&self.links, code, self.links.firsts[remainder])
    }

    /// The next place of the number that stands at a place.
    pub(crate) fn next(&self, place: usize) -> Option<usize>
        ensures { result ≡ spec.next_from (slice_get self.now place) place self.now }
    {
        let code = *self.links.codes.get(place)?;
        seek(&self.links, code, self.links.nexts[place])
    }
}
