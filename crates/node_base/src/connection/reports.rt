// Reporting what is read from a connection.

ghost use Rattle.std.specs.Prelude.{◌≡◌, true, length, IfErr};
ghost use Rattle.node_base.specs.connection.Reports.{Hears, WasLet, faults_after, was_let_in};
ghost use Rattle.node_base.specs.connection.Inside.{HearsOn, HearsPiece, faults_so_far};

use crate::connection::ending::Ending;
use crate::connection::sink::ReportSink;
use crate::devices::{Counted, OneRead, PIECE_BYTES};
use std::alloc::Global;
use std::io::Read;
use std::sync::Wait;
use std::time::Clock;
use world_base::node_connections::{Piece, Port};
use world_base::node_core::Item;

/// Reports a connection to the sink: that it was opened, then each piece that the device returns,
/// then that it ended. Returns how it ended.
pub fn report_connection<R: Wait + Clock, H: ReportSink, D: Read>(
    rt: &R,
    alloc: Global,
    port: Port,
    device: &mut Counted<D>,
    sink: &mut H,
) -> Ending
    ensures hears { Hears port (H.heard sink.old) (H.heard sink.new)
        result (D.remaining device.old.device) (D.remaining device.new.device) }

    // The sink was asked whether the connection may be read, and it was read exactly if the answer
    // was yes.
    ensures let_in { WasLet H.lets (was_let_in result) }

    // Ends as `Fault` exactly if one more call of the device failed.
    ensures faults { device.new.faults ≡ faults_after result device.old.faults }
{
    let opened = sink.now(rt);
    sink.report(rt, Item::Opened(port, opened));
    let ending = report_pieces(rt, alloc, port, opened, device, sink);
    sink.report(rt, Item::Ended(port));
    ending
}

// Reports each piece until the device ends, if the sink lets the connection be read.
fn report_pieces<R: Wait + Clock, H: ReportSink, D: Read>(
    rt: &R,
    alloc: Global,
    port: Port,
    opened: u64,
    device: &mut Counted<D>,
    sink: &mut H,
) -> Ending
    ensures hears { HearsOn port opened (H.heard sink.old) (H.heard sink.new)
        result (D.remaining device.old.device) (D.remaining device.new.device) }
    ensures let_in { WasLet H.lets (was_let_in result) }
    ensures faults { device.new.faults ≡ faults_after result device.old.faults }
{
    if !sink.let_in(rt) {
        return Ending::Refused;
    }
    let Ok(mut bytes) = Vec::from_elem(alloc, 0u8, PIECE_BYTES) else {
        return Ending::Memory;
    };
    let buffer = bytes.as_mut_slice();
    let mut last = opened;
    for _ in rt.forever() {
        match report_piece(rt, alloc, port, last, device, buffer, sink) {
            Ok(now) => last = now,
            Err(ending) => return ending,
        }
    }
    unreachable!()
}

// Reads one piece and reports it, with a time that is not before `last`. Returns that time, or how
// the connection ended.
fn report_piece<R: Wait + Clock, H: ReportSink, D: Read>(
    rt: &R,
    alloc: Global,
    port: Port,
    last: u64,
    device: &mut Counted<D>,
    buffer: &mut [u8],
    sink: &mut H,
) -> Result<u64, Ending>
    requires { length buffer.old ≡ PIECE_BYTES }
    ensures hears { HearsPiece port last (H.heard sink.old) (H.heard sink.new)
        result (D.remaining device.old.device) (D.remaining device.new.device) }
    ensures read { IfErr result (λ ending. was_let_in ending ≡ true) }
    ensures faults { device.new.faults ≡ faults_so_far result device.old.faults }
{
    let count = match device.read_piece(buffer) {
        OneRead::Bytes(count) => count,
        OneRead::End => return Err(Ending::End),
        OneRead::Fault => return Err(Ending::Fault),
    };
    let Ok(piece) = Piece::from_slice(alloc, &buffer[..count]) else {
        return Err(Ending::Memory);
    };
    let shown = sink.now(rt);
    let now = shown.max(last);
    sink.report(rt, Item::Bytes(port, piece, now));
    Ok(now)
}
