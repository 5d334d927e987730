// Why a judgement stops.
use crate::wants::Wanted;

/// Why a judgement stops before its end.
#[derive(Drop)]
pub enum Halt {
    /// This was asked and isn't known.
    Wants(Wanted),
    /// Memory was refused.
    NoMemory,
}
