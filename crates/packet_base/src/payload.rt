// The payload of a publication.

ghost use Rattle.std.specs.Prelude.{◌≡◌, IfOk, length, bytes_eq};
ghost use Rattle.std.specs.Cmp;
ghost use Rattle.std.specs.Cmp.Lexicographic.{nat_list_eq_equiv};

use std::alloc::{AllocError, Global};
use std::marker::Model;
use std::sync::ArcSlice;

/// The payload of a publication: any bytes (MQTT 3.3.3), never changed. Its value in contracts is
/// its bytes. A copy is one more reference to them: it takes no memory, and fails only if the
/// references can no longer be counted.
#[derive(Debug)]
pub struct Payload {
    // A reference to the bytes, which all copies share.
    bytes: ArcSlice<u8>,
}

impl Drop for Payload {
    fn drop(self) {
        let Payload { bytes: _bytes } = self;
    }
}

impl Model for Payload {
    ghost use Rattle.std.specs.Prelude.{List, ℕ};
    ghost use Rattle.std.specs.Arc.{arc_slice_items};

    ghost Value = { List ℕ };

    ghost view = { λ payload. arc_slice_items payload.bytes };
}

impl Payload {
    /// Returns a payload of these bytes, which are copied once.
    pub fn new(alloc: Global, bytes: &[u8]) -> Result<Payload, AllocError>
        ensures { IfOk result (λ payload. payload ≡ bytes.now) }
    {
        let bytes = ArcSlice::from_slice(alloc, bytes)?;
        Ok(Payload { bytes })
    }

    /// Returns the bytes.
    pub fn as_slice(&self) -> &[u8]
        ensures { result.now ≡ self.now }
    {
        self.bytes.as_slice()
    }
}

impl Clone for Payload {
    ghost is_clone = { λ payload copy. copy ≡ payload };

    fn clone(&self) -> Result<Payload, AllocError> {
        Ok(Payload {
            bytes: self.bytes.clone()?,
        })
    }
}

impl PartialEq for Payload {
    ghost eq = { bytes_eq };

    ghost laws = { Cmp.partial_equiv_from_equiv nat_list_eq_equiv };

    fn eq(&self, other: &Payload) -> bool {
        self.as_slice() == other.as_slice()
    }
}

impl Eq for Payload {
    ghost laws = { nat_list_eq_equiv };
}
