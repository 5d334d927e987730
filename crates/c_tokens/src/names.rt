// Spellings that recur in a text share one text in memory.
ghost use Rattle.std.specs.Prelude.{◌≡◌, IfOk};

use shared_text::Name;
use std::alloc::{AllocError, Global};

/// The spellings of a text so far, each in a place that is made of it. Of two spellings with one place only the later
/// one is shared.
#[derive(Drop)]
pub struct Names {
    places: Vec<Option<Name>>,
    last: u64,
}

// FNV-1a.
fn number_of(text: &str) -> u64 {
    let mut number: u64 = 0xCBF2_9CE4_8422_2325;
    for byte in text.as_bytes() {
        number = (number ^ u64::from(*byte)).wrapping_mul(0x0000_0100_0000_01B3);
    }
    number
}

// How many places are made for a text of so many bytes: a power of two.
fn places_for(length: usize) -> u64 {
    if length < 1_024 {
        return 64;
    }
    if length < 16_384 {
        return 1_024;
    }
    if length < 262_144 {
        return 8_192;
    }
    65_536
}

impl Names {
    /// With places for the spellings of a text of so many bytes, 65,536 at most.
    pub fn new(alloc: Global, length: usize) -> Result<Names, AllocError> {
        let count = places_for(length);
        let mut places = Vec::with_capacity(alloc, count as usize)?;
        for _ in 0..count {
            places.push(None)?;
        }
        Ok(Names {
            places,
            last: count.saturating_sub(1),
        })
    }

    /// A name with this text, shared with the earlier one where there is one.
    pub fn name(&mut self, alloc: Global, text: &str) -> Result<Name, AllocError>
        ensures { IfOk result (λ name. name ≡ text.now) }
    {
        let number = number_of(text);
        let place = ((number ^ (number >> 32)) & self.last) as usize;
        if let Some(Some(name)) = self.places.get(place) {
            if name.as_str() == text {
                return name.share();
            }
        }
        let name = Name::from_str(alloc, text)?;
        let copy = name.share()?;
        if let Some(slot) = self.places.get_mut(place) {
            *slot = Some(copy);
        }
        Ok(name)
    }
}
