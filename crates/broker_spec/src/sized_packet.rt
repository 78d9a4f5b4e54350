// A packet that the log may hold.

ghost use Rattle.std.specs.Prelude.{◌≡◌, ◌↔◌, IfOk, IsOk, IsErrOf};
ghost use Rattle.packet.specs.Spelling.{Fits, IsListed, IsTooLarge};
ghost use Rattle.broker_spec.specs.Sized.{IsSized, unspellable_number};

use packet::Packet;
use std::alloc::AllocError;
use std::error::Error;
use std::fmt;
use std::marker::Model;

/// A packet that can be encoded, as every packet of a log must be: its body has at most `MAX_BODY`
/// bytes and none of its lists is empty. Its value in contracts is the packet.
#[derive(Debug)]
pub struct SizedPacket {
    // Satisfies what [`Unspellable`] lists.
    packet: Packet,
}

impl Drop for SizedPacket {
    fn drop(self) {
        let SizedPacket { packet: _packet } = self;
    }
}

impl Model for SizedPacket {
    ghost use Rattle.packet.specs.declared.packet.Packet.{Packet};
    ghost use Rattle.broker_spec.specs.Sized.{IsSized};

    ghost Value = { Packet };

    ghost view = { λ sized. sized.packet };

    ghost invariant = { λ sized. IsSized sized.packet };
}

/// Why a packet cannot be encoded.
#[derive(Clone, Copy, Debug, PartialEq, Eq)]
pub enum Unspellable {
    /// Its body has more than `MAX_BODY` bytes, this broker's own limit.
    TooLarge,
    /// A SUBSCRIBE, SUBACK or UNSUBSCRIBE with an empty list (MQTT 3.8.3, 3.9.3, 3.10.3).
    Shape,
}

impl Unspellable {
    /// Returns the number of this refusal, the same in every program and document of this broker.
    pub fn number(self) -> u8
        ensures { result ≡ unspellable_number self }
    {
        match self {
            Unspellable::TooLarge => 4,
            Unspellable::Shape => 10,
        }
    }
}

impl fmt::Display for Unspellable {
    fn fmt<W: fmt::Write>(&self, f: &mut fmt::Formatter<W>) -> fmt::Result {
        f.write_str(match self {
            Unspellable::TooLarge => "packet too large",
            Unspellable::Shape => "empty list",
        })
    }
}

impl Error for Unspellable {}

impl SizedPacket {
    /// Returns this packet, if it can be encoded. `TooLarge` comes exactly if its body has more
    /// than `MAX_BODY` bytes, `Shape` if it has not and a list of it is empty.
    pub fn new(packet: Packet) -> Result<SizedPacket, Unspellable>
        ensures value { IfOk result (λ sized. sized ≡ packet) }
        ensures ok { IsOk result ↔ IsSized packet }
        ensures large { IsErrOf result Unspellable.TooLarge ↔ IsTooLarge packet }
    {
        if packet.is_too_large() {
            return Err(Unspellable::TooLarge);
        }
        if !packet.has_no_empty_list() {
            return Err(Unspellable::Shape);
        }
        Ok(SizedPacket { packet })
    }

    /// Returns the packet.
    pub fn packet(&self) -> &Packet
        ensures value { result.now ≡ self.now }
        ensures sized { IsSized self.now }
    {
        &self.packet
    }

    /// Returns a packet equal to this one.
    pub fn copy(&self) -> Result<SizedPacket, AllocError>
        ensures { IfOk result (λ copy. copy ≡ self.now) }
    {
        Ok(SizedPacket {
            packet: self.packet.copy()?,
        })
    }
}
