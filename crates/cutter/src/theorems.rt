// Theorems about streams. The functions only call those whose theorems they need; their contracts
// are the theorems.

ghost use Rattle.cutter.specs.Theorems.{CuttingsAgree, EveryStreamIsCut, NoPacketIsLeft};
ghost use Rattle.cutter.specs.Theorems.{OneCut, PacketsOfTheStream};

use packet::no_spelling_begins_another;

/// States that a stream is split into packets and a rest in only one way.
pub fn one_cut()
    ensures { OneCut }
{
    no_spelling_begins_another();
}

/// States that, after any sequence of calls, the packets that a cutter returned are a prefix of the
/// packets of all bytes that it was fed.
pub fn packets_of_the_stream()
    ensures { PacketsOfTheStream }
{
    no_spelling_begins_another();
}

/// States that every list of bytes is split into packets and a rest that begins with no whole
/// packet.
pub fn every_stream_is_cut()
    ensures { EveryStreamIsCut }
{}

/// States that once `next` returns no packet, a cutter has returned all packets of the bytes that
/// it was fed and holds the rest. So two cutters that were fed the same bytes, split anywhere,
/// returned the same packets.
pub fn no_packet_is_left()
    ensures none { NoPacketIsLeft }
    ensures agree { CuttingsAgree }
{
    no_spelling_begins_another();
}
