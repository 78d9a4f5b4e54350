// One request and its answer over a device.

ghost use Rattle.std.specs.Prelude.{IfOk, OnOk};
ghost use Rattle.admin.specs.Serving.{ReadsInto, Serves};

use crate::answers::answer;
use crate::reader::{MAX_REQUEST, RequestReader};
use crate::view::AdminView;
use std::alloc::Global;
use std::io;
use std::io::{Read, Write};

// How many bytes one read takes at most.
const PIECE_BYTES: usize = 1_024;

/// Reads one request, writes its answer, and flushes. An input that ends early is answered with
/// 400. Fails if a read or a write fails, as one that waited too long, or if memory runs out; the
/// answer may be written in part then. The caller closes the connection, which it may not use
/// again.
pub fn serve_admin<R: Read, W: Write>(
    alloc: Global,
    view: &AdminView,
    input: &mut R,
    output: &mut W,
) -> io::Result<()>
    ensures { OnOk result (Serves view.now (R.remaining input.old) (R.remaining input.new)
        (W.contents output.old) (W.contents output.new)) }
{
    let reader = read_request(alloc, input)?;
    let bytes = answer(alloc, view, reader.bytes())?;
    output.write_all(&bytes)?;
    output.flush()
}

// Reads until a request needs no more bytes, or the input ends. Each read brings a byte at least.
fn read_request<R: Read>(alloc: Global, input: &mut R) -> io::Result<RequestReader>
    ensures { IfOk result (ReadsInto (R.remaining input.old) (R.remaining input.new)) }
{
    let mut reader = RequestReader::new(alloc)?;
    let mut buffer = [0u8; PIECE_BYTES];
    for _turn in 0..MAX_REQUEST + 1 {
        let count = input.read(&mut buffer)?;
        if count == 0 {
            return Ok(reader);
        }
        if reader.feed(&buffer[..count]) {
            return Ok(reader);
        }
    }
    Ok(reader)
}
