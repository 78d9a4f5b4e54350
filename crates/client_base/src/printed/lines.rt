// How a publication is printed.

ghost use Rattle.std.specs.Prelude.{◌≡◌, ◌++◌, ◌<◌, OnOk};
ghost use Rattle.client_base.specs.printed.Lines.{digit, is_plain, printed_line, printed, printed_byte};

use crate::Accepted;
use std::alloc::AllocError;

/// Appends the line of a publication: QoS, RETAIN as 0 or 1, topic and payload, with one space
/// between them and a line feed at the end.
pub fn print_line(accepted: &Accepted, line: &mut Vec<u8>) -> Result<(), AllocError>
    ensures { OnOk result (line.new.items ≡ line.old.items ++ printed_line accepted.now) }
{
    let retain = if accepted.retain { b'1' } else { b'0' };
    line.extend_from_slice(&[b'0' + accepted.qos.number(), b' ', retain, b' '])?;
    print_text(accepted.topic.as_str().as_bytes(), line)?;
    line.extend_from_slice(b" ")?;
    print_text(accepted.payload.as_slice(), line)?;
    line.extend_from_slice(b"\n")
}

/// Appends a text: each byte from 0x21 to 0x7E except the backslash as it is, every other byte as
/// `\x` and two hexadecimal digits.
pub fn print_text(text: &[u8], line: &mut Vec<u8>) -> Result<(), AllocError>
    ensures { OnOk result (line.new.items ≡ line.old.items ++ printed text.now) }
{
    for byte in text {
        print_byte(*byte, line)?;
    }
    Ok(())
}

// Appends a byte as it is, or as `\x` and two digits.
fn print_byte(byte: u8, line: &mut Vec<u8>) -> Result<(), AllocError>
    ensures { OnOk result (line.new.items ≡ line.old.items ++ printed_byte byte) }
{
    if is_plain(byte) {
        line.extend_from_slice(&[byte])
    } else {
        line.extend_from_slice(&[b'\\', b'x', digit(byte / 16), digit(byte % 16)])
    }
}

// Returns true if a byte is printed as it is.
fn is_plain(byte: u8) -> bool
    ensures { result ≡ is_plain byte }
{
    0x21 <= byte && byte <= 0x7E && byte != b'\\'
}

// Returns the hexadecimal digit of a number below 16.
fn digit(number: u8) -> u8
    requires { number < 16 }
    ensures { result ≡ digit number }
{
    if number < 10 {
        b'0' + number
    } else {
        b'a' + (number - 10)
    }
}
