// Why a word of an order, or of the command line, is refused.

ghost use Rattle.std.specs.Prelude.{◌≡◌};
ghost use Rattle.script.specs.Orders.{refused_number};

use machine::Memory;
use topics::MalformedKind;

/// Why a word of an order, or of the command line, is refused.
#[derive(Clone, Copy)]
pub enum WordFault {
    /// It is refused, with this number.
    Refused(u8),
    /// Memory ran out.
    Memory,
}

impl WordFault {
    /// Returns the number of this refusal, the same in every program and document of this broker.
    pub fn number(self) -> u8
        ensures { result ≡ refused_number self }
    {
        match self {
            WordFault::Refused(number) => number,
            WordFault::Memory => Memory.number(),
        }
    }
}

impl From<MalformedKind> for WordFault {
    ghost use Rattle.script.specs.Orders.{fault_of_word};

    ghost from_gives = { λ kind fault. fault ≡ fault_of_word kind };

    fn from(kind: MalformedKind) -> WordFault {
        match kind {
            MalformedKind::Memory => WordFault::Memory,
            other => WordFault::Refused(other.number()),
        }
    }
}
