// Reading a parcel from its bytes.
//
// Memory is taken as late as it can be, so that no fault is hidden by the want of it: the client of
// an Expel is copied once the whole notice was read.

ghost use Rattle.std.specs.Prelude.{◌≡◌, ◌∷◌, Ok, true, IfOk, IsErrOf};
ghost use Rattle.packet_base.specs.ClientId.{is_client};
ghost use Rattle.packet_base.specs.Outcome.{Gives, IsOutOfMemory, Reads, TakesNoMemory};
ghost use Rattle.session_base.specs.Form.{flag_at};
ghost use Rattle.links.specs.message_form.CommandReading.{client_at};
ghost use Rattle.links.specs.message_form.Numbers.{wide_number_at};
ghost use Rattle.links.specs.message_form.Outcome.{fault_of, Yields};
ghost use Rattle.links.specs.ParcelReading.{expel_at, is_expel, is_notice, notice_of_kind};
ghost use Rattle.links.specs.ParcelReading.{parcel_of, report_at};
ghost use Rattle.links.specs.ParcelReading.{role_at, role_of, status_at, welcome_at, whole_notice};
ghost use Rattle.links.specs.ParcelReading.{IsReadFrom, MayNeedMemory};

use crate::message_form::read_message;
use crate::parcel::Parcel;
use ballot_base::{Role, Status};
use packet_base::{ClientId, Reader, Stop, has_client_length};
use std::alloc::Global;
use topics::MalformedKind;

/// Returns the parcel that these bytes are, or the kind of their first fault from the left. A
/// message has the faults that `read_message` finds. In a notice, `Text` and `Identifier` are those
/// of a Client Identifier, and all else is `Shape`. `Memory` may come for a message where
/// `read_message` says, and for an Expel.
pub fn read_parcel(alloc: Global, bytes: &[u8]) -> Result<Parcel, MalformedKind>
    ensures exact { Yields result (parcel_of bytes.now) }

    // What is read is written so.
    ensures found { IfOk result (IsReadFrom bytes.now) }

    // Memory runs out only if it is needed.
    ensures memory { IsErrOf result MalformedKind.Memory → MayNeedMemory bytes.now }
{
    read_kind_of_fault(alloc, bytes)
}

// Returns the parcel, or the kind of the first fault; its clauses do not speak of writing.
fn read_kind_of_fault(alloc: Global, bytes: &[u8]) -> Result<Parcel, MalformedKind>
    ensures exact { Yields result (parcel_of bytes.now) }
    ensures memory { IsErrOf result MalformedKind.Memory → MayNeedMemory bytes.now }
{
    if is_notice(bytes) {
        return read_notice(alloc, bytes);
    }
    match read_message(alloc, bytes) {
        Ok(message) => Ok(Parcel::Message(message)),
        Err(kind) => Err(kind),
    }
}

// Returns true if these bytes begin with the kind of a notice.
fn is_notice(bytes: &[u8]) -> bool
    ensures { result ≡ is_notice bytes.now }
{
    match bytes {
        [] => false,
        [kind, ..] => *kind >= 128,
    }
}

// Returns the notice that these bytes are.
fn read_notice(alloc: Global, bytes: &[u8]) -> Result<Parcel, MalformedKind>
    requires { is_notice bytes.now ≡ true }
    ensures exact { Yields result (parcel_of bytes.now) }
    ensures memory { IsErrOf result MalformedKind.Memory → MayNeedMemory bytes.now }
{
    match read_whole(alloc, bytes) {
        Ok(notice) => Ok(notice),
        Err(stop) => Err(fault_of(stop)),
    }
}

// Returns the kind of the fault that a reading stopped with.
fn fault_of(stop: Stop) -> MalformedKind
    ensures { result ≡ fault_of stop }
{
    match stop {
        Stop::More => MalformedKind::Shape,
        Stop::Malformed(kind) => kind,
        Stop::Refused(_) => MalformedKind::Protocol,
    }
}

// Reads a notice, and nothing after it.
#[tactic(auto, unfolding(crate::specs::ParcelReading::whole_notice))]
fn read_whole(alloc: Global, bytes: &[u8]) -> Result<Parcel, Stop>
    ensures exact { Gives (λ value. value) result (whole_notice bytes.now) }
    ensures memory { IsOutOfMemory result → is_expel bytes.now ≡ true }
{
    let mut reader = Reader::new(bytes);
    let kind = reader.byte()?;
    let notice = read_kind(alloc, kind, &mut reader)?;
    reader.end()?;
    Ok(notice)
}

// Reads what follows the kind of a notice.
fn read_kind(alloc: Global, kind: u8, reader: &mut Reader) -> Result<Parcel, Stop>
    ensures exact { Reads (λ value. value) result reader.new (notice_of_kind kind reader.old) }
    ensures memory { IsOutOfMemory result → kind ≡ 130 }
{
    match kind {
        128 => read_welcome(reader),
        129 => read_report(reader),
        130 => read_expel(alloc, reader),
        131 => Ok(Parcel::Crash),
        _ => Err(Stop::Malformed(MalformedKind::Shape)),
    }
}

#[tactic(auto, unfolding(crate::specs::ParcelReading::welcome_at))]
fn read_welcome(reader: &mut Reader) -> Result<Parcel, Stop>
    ensures exact { Reads (λ value. value) result reader.new (welcome_at reader.old) }
    ensures memory { TakesNoMemory result }
{
    Ok(Parcel::Welcome(reader.byte()?))
}

#[tactic(auto, unfolding(crate::specs::ParcelReading::report_at))]
fn read_report(reader: &mut Reader) -> Result<Parcel, Stop>
    ensures exact { Reads (λ value. value) result reader.new (report_at reader.old) }
    ensures memory { TakesNoMemory result }
{
    Ok(Parcel::Report(read_status(reader)?))
}

#[tactic(auto, unfolding(crate::specs::ParcelReading::expel_at))]
fn read_expel(alloc: Global, reader: &mut Reader) -> Result<Parcel, Stop>
    ensures exact { Reads (λ value. value) result reader.new (expel_at reader.old) }
{
    let client = read_client(reader)?;
    let client = ClientId::of_checked(alloc, client)?;
    Ok(Parcel::Expel(client))
}

#[tactic(auto, unfolding(crate::specs::ParcelReading::status_at))]
fn read_status(reader: &mut Reader) -> Result<Status, Stop>
    ensures exact { Reads (λ value. value) result reader.new (status_at reader.old) }
    ensures memory { TakesNoMemory result }
{
    let ballot = read_wide_number(reader)?;
    let held = read_wide_number(reader)?;
    let committed = read_wide_number(reader)?;
    let role = read_role(reader)?;
    let stopped = read_flag(reader)?;
    Ok(Status {
        ballot,
        role,
        held,
        committed,
        stopped,
    })
}

#[tactic(auto, unfolding(crate::specs::ParcelReading::role_at))]
fn read_role(reader: &mut Reader) -> Result<Role, Stop>
    ensures exact { Reads (λ value. value) result reader.new (role_at reader.old) }
    ensures memory { TakesNoMemory result }
{
    let number = reader.byte()?;
    role_of(number)
}

fn role_of(number: u8) -> Result<Role, Stop>
    ensures exact { Gives (λ role. role) result (role_of number) }
    ensures memory { TakesNoMemory result }
{
    match number {
        0 => Ok(Role::Backup),
        1 => Ok(Role::Fetching),
        2 => Ok(Role::Installing),
        3 => Ok(Role::Active),
        _ => Err(Stop::Malformed(MalformedKind::Shape)),
    }
}

// Reads a number of eight bytes.
#[tactic(auto, unfolding(crate::specs::message_form::Numbers::wide_number_at))]
fn read_wide_number(reader: &mut Reader) -> Result<u64, Stop>
    ensures exact { Reads (λ value. value) result reader.new (wide_number_at reader.old) }
    ensures memory { TakesNoMemory result }
{
    let front = reader.front(8)?;
    Ok(u64::from_be_bytes([
        front[0], front[1], front[2], front[3], front[4], front[5], front[6], front[7],
    ]))
}

// Reads a byte that is 0 or 1.
#[tactic(auto, unfolding(session_base::specs::Form::flag_at))]
fn read_flag(reader: &mut Reader) -> Result<bool, Stop>
    ensures exact { Reads (λ value. value) result reader.new (flag_at reader.old) }
    ensures memory { TakesNoMemory result }
{
    let byte = reader.byte()?;
    if byte > 1 {
        return Err(Stop::Malformed(MalformedKind::Shape));
    }
    Ok(byte == 1)
}

// Reads the text of a Client Identifier; `Identifier` if it does not have 1 to 64 bytes.
#[tactic(auto, unfolding(crate::specs::message_form::CommandReading::client_at), using(packet_base::proofs::Clients::client_checked))]
fn read_client<'a>(reader: &mut Reader<'a>) -> Result<&'a str, Stop>
    ensures exact { Reads (λ text. text.now) result reader.new (client_at reader.old) }
    ensures checked { IfOk result (λ text. is_client text.now ≡ true) }
    ensures memory { TakesNoMemory result }
{
    let client = reader.text()?;
    if !has_client_length(client) {
        return Err(Stop::Malformed(MalformedKind::Identifier));
    }
    Ok(client)
}
