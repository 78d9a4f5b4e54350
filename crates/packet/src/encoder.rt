// Appending a packet to a vector.

ghost use Rattle.std.specs.Prelude.{◌≡◌, ◌≢◌, ◌↔◌, ◌+◌, ◌≤◌, Err, OnOk, OnErr, IsErrOf};
ghost use Rattle.std.specs.Prelude.{vec_len, vec_capacity};
ghost use Rattle.packet.specs.Spelling.{IsListed, IsTooLarge, IsPacket};
ghost use Rattle.packet.specs.Spelling.{AppendsSpelling, spelled_len};

use crate::error::EncodeFault;
use crate::packet::{MAX_BODY, Packet};
use packet_base::{length_size, put_byte, put_length};

/// Appends the bytes of a packet to the vector. `TooLarge` comes exactly if the body has more than
/// [`MAX_BODY`] bytes, and before memory is needed; `Memory` if the vector had too little capacity
/// and could not grow. After an error the vector is unchanged.
pub fn encode(packet: &Packet, out: &mut Vec<u8>) -> Result<(), EncodeFault>
    requires listed { IsListed packet.now }
    ensures ok { OnOk result (AppendsSpelling out.old.items out.new.items packet.now) }
    ensures fits { OnOk result (IsPacket packet.now) }

    // Unless memory runs out, a packet is refused exactly if it is too large.
    ensures large { IsErrOf result EncodeFault.TooLarge ↔ IsTooLarge packet.now }
    ensures err { OnErr result (out.new.items ≡ out.old.items) }

    // No memory is taken if the vector has the capacity.
    ensures room { vec_len out.old + spelled_len packet.now ≤ vec_capacity out.old
        → result ≢ Err EncodeFault.Memory }
{
    packet.ensure_ranges();
    let len = packet.body_len();
    if len > MAX_BODY {
        return Err(EncodeFault::TooLarge);
    }
    let short_len = len as u32;
    out.reserve(1 + length_size(short_len) + len)?;
    put_byte(out, packet.header().first_byte());
    put_length(out, short_len);
    packet.put_body(out);
    Ok(())
}
