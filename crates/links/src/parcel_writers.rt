// Writing a parcel.
//
// A parcel is appended whole or not at all: room for a notice is made before its first byte.

ghost use Rattle.std.specs.Prelude.{◌≡◌, ◌+◌, ◌<◌, ◌≤◌, ◌^◌, ◌↔◌, [], ◌∷◌, ◌++◌, OnErr, OnOk, IsErrOf};
ghost use Rattle.std.specs.Prelude.{length, true, vec_len, vec_capacity};
ghost use Rattle.packet_base.specs.ClientId.{is_client};
ghost use Rattle.packet_base.specs.Spelling.{bit, text};
ghost use Rattle.links.specs.message_form.Numbers.{IsWide};
ghost use Rattle.links.specs.Parcels.{parcel_bytes, role_number, status_bytes, IsParcel};
ghost use Rattle.links.specs.Room.{IsTooLarge, MayRunOut};

use crate::message_form::{WriteFault, write_message};
use crate::parcel::Parcel;
use ballot_base::{Role, Status};
use packet_base::ClientId;
use std::alloc::AllocError;

/// The bytes of a report: its kind and its status.
const REPORT_BYTES: usize = 27;

/// Appends the bytes of a parcel. `TooLarge` comes exactly if a message has a list of more than 255
/// members; `Memory` only if the vector had too little capacity and could not grow, or for a log
/// with commands. After an error the vector has what it had.
pub fn write_parcel(parcel: &Parcel, out: &mut Vec<u8>) -> Result<(), WriteFault>
    ensures ok { OnOk result (out.new.items ≡ out.old.items ++ parcel_bytes parcel.now) }
    ensures fits { OnOk result (IsParcel parcel.now) }
    ensures large { IsErrOf result WriteFault.TooLarge ↔ IsTooLarge parcel.now }
    ensures room { IsErrOf result WriteFault.Memory → MayRunOut out.old parcel.now }
    ensures err { OnErr result (out.new.items ≡ out.old.items) }
{
    match parcel {
        Parcel::Message(message) => write_message(message, out),
        Parcel::Welcome(number) => Ok(out.extend_from_slice(&[128, *number])?),
        Parcel::Report(status) => Ok(write_report(*status, out)?),
        Parcel::Expel(client) => Ok(write_expel(client, out)?),
        Parcel::Crash => Ok(out.extend_from_slice(&[131])?),
    }
}

// Appends a report.
fn write_report(status: Status, out: &mut Vec<u8>) -> Result<(), AllocError>
    ensures ok { OnOk result (out.new.items ≡ out.old.items ++ (129 ∷ status_bytes status)) }
    ensures fits { IsWide status.ballot × IsWide status.held × IsWide status.committed }
    ensures room { OnErr result
        (vec_capacity out.old < vec_len out.old + length (129 ∷ status_bytes status)) }
    ensures err { OnErr result (out.new.items ≡ out.old.items) }
{
    out.reserve(REPORT_BYTES)?;
    put(&[129], out);
    put(&status.ballot.to_be_bytes(), out);
    put(&status.held.to_be_bytes(), out);
    put(&status.committed.to_be_bytes(), out);
    put(&end_of(status), out);
    Ok(())
}

// Returns the last bytes of a report: the role, and whether the replica has stopped.
fn end_of(status: Status) -> [u8; 2]
    ensures { result ≡ role_number status.role ∷ bit status.stopped ∷ [] }
{
    [role_number(status.role), u8::from(status.stopped)]
}

// Returns the number of a role.
fn role_number(role: Role) -> u8
    ensures { result ≡ role_number role }
{
    match role {
        Role::Backup => 0,
        Role::Fetching => 1,
        Role::Installing => 2,
        Role::Active => 3,
    }
}

// Appends an Expel.
#[tactic(auto, using(packet_base::proofs::Clients::client_short))]
fn write_expel(client: &ClientId, out: &mut Vec<u8>) -> Result<(), AllocError>
    ensures ok { OnOk result (out.new.items ≡ out.old.items ++ (130 ∷ text client.now)) }
    ensures fits { is_client client.now ≡ true }
    ensures room { OnErr result
        (vec_capacity out.old < vec_len out.old + length (130 ∷ text client.now)) }
    ensures err { OnErr result (out.new.items ≡ out.old.items) }
{
    let name = client.as_str();
    let len = name.len() as u16;
    out.reserve(3 + name.len())?;
    put(&[130], out);
    put(&len.to_be_bytes(), out);
    put(name.as_bytes(), out);
    Ok(())
}

// Appends bytes.
fn put(bytes: &[u8], out: &mut Vec<u8>)
    requires { vec_len out.old + length bytes.now ≤ vec_capacity out.old }
    ensures items { out.new.items ≡ out.old.items ++ bytes.now }
    ensures len { vec_len out.new ≡ vec_len out.old + length bytes.now }
    ensures capacity { vec_capacity out.old ≤ vec_capacity out.new }
{
    out.extend_from_slice(bytes).unwrap();
}
