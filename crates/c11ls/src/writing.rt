// Writing a reply to the wire.
ghost use Rattle.std.specs.Prelude.{◌≡◌, ◌+◌, ◌<◌, ◌^◌, option_map, OnOk, OnErr, MatchResult};
ghost use Rattle.io_edges.specs.Wire.{after_write};
ghost use Rattle.c11ls.specs.Ties.Turn.{SentFront};

use io_edges::{Failed, Wire};

/// Offers all of the bytes to the sink, then what is left of them, until it took all or failed.
pub fn write_reply<W: Wire>(wire: &mut W, bytes: &[u8]) -> Result<(), Failed>
    requires { W.write_faults wire.old + 1 < 2 ^ 64 }
    ensures written { OnOk result (W.told wire.new ≡ option_map (after_write bytes.now) (W.told wire.old)) }
    ensures front { OnErr result (SentFront (W.told wire.old) (W.told wire.new) bytes.now) }
    ensures counted { MatchResult result (λ _. W.write_faults wire.new ≡ W.write_faults wire.old)
        (λ _. W.write_faults wire.old < W.write_faults wire.new) }
    ensures other_side { W.read_faults wire.new ≡ W.read_faults wire.old }
{
    let mut rest = bytes;
    'pieces: while !rest.is_empty() {
        match wire.write(rest) {
            Ok(count) => rest = rest.split_at(count).1,
            Err(failed) => return Err(failed),
        }
    }
    Ok(())
}
