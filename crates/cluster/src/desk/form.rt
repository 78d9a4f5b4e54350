// The state of a desk as 67 bytes: its parts, each at its place, and a check sum over them.

ghost use Rattle.std.specs.Prelude.{◌≡◌, ◌≤◌, ◌+◌, ◌∷◌, ◌++◌, [], true, Ok, IfOk, IfErr, OnOk, length, take, drop, slice_index};
ghost use Rattle.cluster.specs.desk.Form.{desk_of, form, members_at, members_bytes, parts, shape_checked};
ghost use Rattle.cluster.specs.desk.Form.{state_at, sum_of, waiting_at, waiting_bytes, wide, wide_at};
ghost use Rattle.cluster.specs.desk.Form.{is_of, padded, IsRefusedSo, VersionIsChecked};
ghost use Rattle.cluster.specs.desk.States.{is_sound, waits_fit};
ghost use Rattle.std.specs.Str.{bytes_eq};

use crate::desk::error::{FormFault, OpenError};
use crate::desk::state::State;
use ballot_base::{Config, MAX_MEMBERS, Members};
use links::seal::CLUSTER_BYTES;
use machine::Memory;
use sha2::{Digest, Sha256};
use std::alloc::Global;

/// The version of this form, its first byte.
const VERSION: u8 = 1;

/// Bytes of a state.
pub const FORM_BYTES: usize = SUMMED_BYTES + SUM_BYTES;

// The bytes before the check sum, and those of it.
const SUMMED_BYTES: usize = 59;

const SUM_BYTES: usize = 8;

impl State {
    /// Returns the bytes of the state.
    pub(crate) fn bytes(&self) -> [u8; FORM_BYTES]
        requires { is_sound self.now.next self.now.master ≡ true }
        ensures { result ≡ form self.now }
    {
        let parts = self.parts();
        joined(&parts, &sum_of(&parts))
    }

    // Returns the parts of the state.
    fn parts(&self) -> [u8; SUMMED_BYTES]
        requires { is_sound self.now.next self.now.master ≡ true }
        ensures { result ≡ parts self.now }
    {
        parts_of(
            &self.cluster,
            self.next,
            self.given,
            self.active,
            self.members.as_slice(),
            &self.waiting,
        )
    }

    /// Returns the state that these bytes are, or the first fault. Memory is taken once their check
    /// sum is the right one.
    #[tactic(auto, using(crate::proofs::of_desk::Checked::shape_ok, crate::proofs::of_desk::Checked::shape_bad, crate::proofs::of_desk::Checked::shape_sound))]
    pub(crate) fn read(alloc: Global, bytes: &[u8]) -> Result<State, OpenError>
        ensures ok { IfOk result (λ state. desk_of bytes.now ≡ Ok state) }
        ensures sound { IfOk result (λ state. is_sound state.next state.master ≡ true) }
        ensures refused { IfErr result (λ error. IsRefusedSo bytes.now error) }
    {
        check_front(bytes)?;
        let state = state_at(alloc, bytes)?;
        if !is_of(&state, front_of(bytes)) {
            return Err(OpenError::Form(FormFault::Shape));
        }
        Ok(state)
    }
}

// Refuses another version, another length and another check sum.
fn check_front(bytes: &[u8]) -> Result<(), OpenError>
    ensures long { OnOk result (length bytes.now ≡ 67) }
    ensures ok { OnOk result (desk_of bytes.now ≡ shape_checked bytes.now) }
    ensures refused { IfErr result (IsRefusedSo bytes.now) }
{
    check_version(bytes)?;
    if bytes.len() != FORM_BYTES {
        return Err(OpenError::Form(FormFault::Length));
    }
    let (front, sum) = bytes.split_at(SUMMED_BYTES);
    if sum_of(front).as_slice() != sum {
        return Err(OpenError::Form(FormFault::Sum));
    }
    Ok(())
}

// Refuses another version.
fn check_version(bytes: &[u8]) -> Result<(), OpenError>
    ensures { VersionIsChecked bytes.now result }
{
    match bytes.first() {
        None => Err(OpenError::Form(FormFault::Length)),
        Some(version) if *version != VERSION => {
            Err(OpenError::Form(FormFault::Version(*version)))
        }
        Some(_) => Ok(()),
    }
}

// Returns the bytes before the check sum.
fn front_of(bytes: &[u8]) -> &[u8]
    requires { length bytes.now ≡ 67 }
    ensures { result.now ≡ take 59 bytes.now }
{
    let (front, _) = bytes.split_at(SUMMED_BYTES);
    front
}

// Returns the parts, each at its place.
fn parts_of(
    cluster: &[u8; CLUSTER_BYTES],
    next: u8,
    given: u64,
    active: u64,
    members: &[u8],
    waiting: &Option<(u64, Config)>,
) -> [u8; SUMMED_BYTES]
    requires few { length members.now ≤ 7 }
    requires waiting { waits_fit waiting.now ≡ true }
    ensures { result ≡ (1 ∷ []) ++ cluster.now ++ (next ∷ []) ++ wide given ++ wide active
        ++ members_bytes members.now ++ waiting_bytes waiting.now }
{
    let mut bytes = [0; SUMMED_BYTES];
    put(&mut bytes, 0, &[VERSION]);
    put(&mut bytes, 1, cluster);
    put(&mut bytes, 17, &[next]);
    put(&mut bytes, 18, &given.to_be_bytes());
    put(&mut bytes, 26, &active.to_be_bytes());
    put(&mut bytes, 34, &members_bytes(members));
    put(&mut bytes, 42, &waiting_bytes(waiting));
    bytes
}

// Returns true if a state is sound and has these parts.
fn is_of(state: &State, bytes: &[u8]) -> bool
    ensures { result ≡ is_of state.now bytes.now }
{
    state.is_sound() && has_parts(state, bytes)
}

fn has_parts(state: &State, bytes: &[u8]) -> bool
    requires { is_sound state.now.next state.now.master ≡ true }
    ensures { result ≡ bytes_eq (parts state.now) bytes.now }
{
    state.parts().as_slice() == bytes
}

// Writes a part at its place.
fn put(bytes: &mut [u8; SUMMED_BYTES], at: usize, part: &[u8])
    requires { at + length part.now ≤ 59 }
    ensures { take (at + length part.now) bytes.new ≡ take at bytes.old ++ part.now }
{
    bytes[at..at + part.len()].copy_from_slice(part);
}

// Returns the parts, followed by their check sum.
fn joined(parts: &[u8; SUMMED_BYTES], sum: &[u8; SUM_BYTES]) -> [u8; FORM_BYTES]
    ensures { result ≡ parts.now ++ sum.now }
{
    let mut bytes = [0; FORM_BYTES];
    bytes[..SUMMED_BYTES].copy_from_slice(parts);
    bytes[SUMMED_BYTES..].copy_from_slice(sum);
    bytes
}

// Returns the check sum of the parts.
fn sum_of(parts: &[u8]) -> [u8; SUM_BYTES]
    ensures { result ≡ sum_of parts.now }
{
    let mut sum = [0; SUM_BYTES];
    sum.copy_from_slice(&Sha256::digest(parts)[..SUM_BYTES]);
    sum
}

// Returns members with zeros up to seven.
fn padded(members: &[u8]) -> [u8; MAX_MEMBERS]
    requires { length members.now ≤ 7 }
    ensures { result ≡ padded members.now }
{
    let mut all = [0; MAX_MEMBERS];
    all[..members.len()].copy_from_slice(members);
    all
}

// Returns the count of members and, with zeros up to seven, their numbers.
fn members_bytes(members: &[u8]) -> [u8; 8]
    requires { length members.now ≤ 7 }
    ensures { result ≡ members_bytes members.now }
{
    let mut bytes = [members.len() as u8; 8];
    bytes[1..].copy_from_slice(&padded(members));
    bytes
}

// Returns the bytes of the ballot that waits; zeros if none does.
fn waiting_bytes(waiting: &Option<(u64, Config)>) -> [u8; 17]
    requires { waits_fit waiting.now ≡ true }
    ensures { result ≡ waiting_bytes waiting.now }
{
    match waiting {
        Some((ballot, config)) => ballot_bytes(*ballot, config),
        None => [0; 17],
    }
}

// Returns the bytes of a ballot that waits.
fn ballot_bytes(ballot: u64, config: &Config) -> [u8; 17]
    requires { length config.now.members ≤ 7 }
    ensures { result
        ≡ wide ballot ++ members_bytes config.now.members ++ config.now.primary ∷ [] }
{
    let mut bytes = [config.primary; 17];
    bytes[..8].copy_from_slice(&ballot.to_be_bytes());
    bytes[8..16].copy_from_slice(&members_bytes(config.members.as_slice()));
    bytes
}

// Returns the state whose parts stand at their places.
fn state_at(alloc: Global, bytes: &[u8]) -> Result<State, OpenError>
    requires { length bytes.now ≡ 67 }
    ensures ok { IfOk result (λ state. state ≡ state_at bytes.now) }
    ensures memory { IfErr result (λ error. error ≡ OpenError.Memory) }
{
    let members = members_at(alloc, bytes, 34)?;
    let waiting = waiting_at(alloc, bytes)?;
    Ok(State {
        cluster: cluster_at(bytes),
        next: bytes[17],
        active: wide_at(bytes, 26),
        members,
        waiting,
        given: wide_at(bytes, 18),
    })
}

// Returns the name of the cluster.
fn cluster_at(bytes: &[u8]) -> [u8; CLUSTER_BYTES]
    requires { length bytes.now ≡ 67 }
    ensures { result ≡ take 16 (drop 1 bytes.now) }
{
    let mut cluster = [0; CLUSTER_BYTES];
    cluster.copy_from_slice(&bytes[1..17]);
    cluster
}

// Returns the number in eight bytes.
fn wide_at(bytes: &[u8], at: usize) -> u64
    requires { at + 8 ≤ length bytes.now }
    ensures { result ≡ wide_at at bytes.now }
{
    let (_, behind) = bytes.split_at(at);
    u64::from_be_bytes([
        behind[0], behind[1], behind[2], behind[3], behind[4], behind[5], behind[6], behind[7],
    ])
}

// Returns the members at a place, at most seven.
fn members_at(alloc: Global, bytes: &[u8], at: usize) -> Result<Members, Memory>
    requires { at + 8 ≤ length bytes.now }
    ensures { IfOk result (λ members. members ≡ members_at at bytes.now) }
{
    let count = usize::from(bytes[at]).min(MAX_MEMBERS);
    let (_, behind) = bytes.split_at(at + 1);
    let (members, _) = behind.split_at(count);
    Members::from_slice(alloc, members)
}

// Returns the ballot that waits.
fn waiting_at(alloc: Global, bytes: &[u8]) -> Result<Option<(u64, Config)>, Memory>
    requires { length bytes.now ≡ 67 }
    ensures { IfOk result (λ waiting. waiting ≡ waiting_at 42 bytes.now) }
{
    let ballot = wide_at(bytes, 42);
    if ballot == 0 {
        return Ok(None);
    }
    let members = members_at(alloc, bytes, 50)?;
    let config = Config {
        members,
        primary: bytes[58],
    };
    Ok(Some((ballot, config)))
}
