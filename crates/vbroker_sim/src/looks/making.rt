// What the publications of a run carry.

use packet_base::Payload;

/// Returns the bytes of a publication that say which client made it, by its index, and its number.
pub fn payload_of(index: u8, serial: u64) -> [u8; 3] {
    [index, (serial / 256 % 256) as u8, (serial % 256) as u8]
}

/// Returns which client made a publication, by its index, and its number. None for another payload.
pub fn made_by(payload: &Payload) -> Option<(u8, u64)> {
    match payload.as_slice() {
        [index, upper, lower] => Some((*index, u64::from(*upper) * 256 + u64::from(*lower))),
        _ => None,
    }
}
