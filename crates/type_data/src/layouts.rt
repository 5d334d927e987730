// Layouts of structures and unions (ISO C11 6.7.2.1).
use std::marker::Model;
use std::rc::Rc;

mod fields;

/// Where the members of a structure or union stand, whose size is at most 2^60-1 bytes and whose alignment at least 1. A copy
/// shares it.
#[derive(Drop)]
pub struct Layout {
    parts: Rc<Parts>,
}

// What the copies of a layout share.
#[derive(Drop)]
struct Parts {
    bytes: u64,
    boundary: u64,
    places: Vec<u64>,
}

impl Model for Layout {
    ghost use Rattle.type_data.specs.Layouts.{Laid};

    ghost Value = { Laid };

    ghost view = { λ l. record { size = l.parts.value.bytes; align = l.parts.value.boundary; offsets = l.parts.value.places.items } };

    ghost use Rattle.std.specs.Prelude.{◌≤◌};

    ghost invariant = { λ l. (l.parts.value.bytes ≤ 1152921504606846975) × (1 ≤ l.parts.value.boundary) };
}
