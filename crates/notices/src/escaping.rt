// Texts of clients, in quotes.

ghost use Rattle.std.specs.Prelude.{◌≡◌, ◌<◌, encode_utf8_all};
ghost use Rattle.std.specs.Fmt.{WritesOnOk};
ghost use Rattle.notices.specs.Escaping.{escaped, escaped_char, hex_digit};

use std::fmt;

/// Shows a text as a JSON string (RFC 8259, section 7): in quotes, with a backslash before each
/// quote and backslash, and each control character, U+0000 to U+001F and U+007F to U+009F, as `\u`
/// and four digits.
#[derive(Clone, Copy)]
pub struct Quoted<'a>(pub &'a str);

impl fmt::Display for Quoted<'_> {
    ghost use Rattle.std.specs.Prelude.{Some};
    ghost use Rattle.notices.specs.Escaping.{quoted};

    ghost output = { λ text. Some (quoted text.0.now) };

    fn fmt<W: fmt::Write>(&self, f: &mut fmt::Formatter<W>) -> fmt::Result {
        f.write_str("\"")?;
        write_escaped(f, self.0)?;
        f.write_str("\"")
    }
}

// Writes a text as it stands between the quotes of a JSON string.
fn write_escaped<W: fmt::Write>(f: &mut fmt::Formatter<W>, text: &str) -> fmt::Result
    ensures { WritesOnOk W.write_str_gives f.old result (escaped text.now) f.new }
{
    for c in text.chars() {
        write_char(f, c)?;
    }
    Ok(())
}

// Writes a character as it stands between the quotes of a JSON string.
fn write_char<W: fmt::Write>(f: &mut fmt::Formatter<W>, c: char) -> fmt::Result
    ensures { WritesOnOk W.write_str_gives f.old result (encode_utf8_all (escaped_char c)) f.new }
{
    if c == '"' || c == '\\' {
        return write!(f, "\\{c}");
    }
    if c.is_control() {
        let code = u32::from(c);
        let high = hex_digit(code / 16);
        let low = hex_digit(code % 16);
        return write!(f, "\\u00{high}{low}");
    }
    write!(f, "{c}")
}

// Returns the hexadecimal digit of a number below 16.
fn hex_digit(number: u32) -> char
    requires { number < 16 }
    ensures { result ≡ hex_digit number }
{
    match number {
        0 => '0',
        1 => '1',
        2 => '2',
        3 => '3',
        4 => '4',
        5 => '5',
        6 => '6',
        7 => '7',
        8 => '8',
        9 => '9',
        10 => 'a',
        11 => 'b',
        12 => 'c',
        13 => 'd',
        14 => 'e',
        _ => 'f',
    }
}
