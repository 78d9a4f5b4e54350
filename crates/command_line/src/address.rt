// What is wrong with the form of an address, for the user.

ghost use Rattle.std.specs.Prelude.{◌≡◌, ◌↔◌, true};
ghost use Rattle.command_line.specs.Addresses.{IsPort};

use std::fmt;

/// What is wrong with the form of an address.
#[derive(Clone, Copy, Debug, PartialEq, Eq)]
pub enum AddressCause {
    /// It has no colon before a port.
    NoPort,
    /// Nothing stands before the last colon.
    NoHost,
    /// What stands behind the last colon is no number from 0 to 65,535.
    BadPort,
}

impl fmt::Display for AddressCause {
    fn fmt<W: fmt::Write>(&self, f: &mut fmt::Formatter<W>) -> fmt::Result {
        let text = match self {
            AddressCause::NoPort => "no port",
            AddressCause::NoHost => "no host before the port",
            AddressCause::BadPort => "the port has to be a number from 0 to 65535",
        };
        write!(f, "{text}")
    }
}

/// Returns what is wrong with the form of an address, which is a host, a colon and a port, as
/// `127.0.0.1:1883`. `None` if nothing is; whether there is such a host is not asked. No clause says
/// any of this.
pub fn address_cause(address: &str) -> Option<AddressCause> {
    let Some((host, port)) = address.rsplit_once(':') else {
        return Some(AddressCause::NoPort);
    };
    if host.is_empty() {
        return Some(AddressCause::NoHost);
    }
    if !is_port(port) {
        return Some(AddressCause::BadPort);
    }
    None
}

// Returns true if a text is a number from 0 to 65,535; a plus may come first.
fn is_port(text: &str) -> bool
    ensures { (result ≡ true) ↔ IsPort text.now }
{
    text.parse::<u16>().is_ok()
}
