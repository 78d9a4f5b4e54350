// The acknowledgements of one session: PUBACK, PUBREC, PUBREL and PUBCOMP (MQTT 3.4 to 3.7).

ghost use Rattle.std.specs.Prelude.{◌≡◌, ◌++◌, OnOk, true};
ghost use Rattle.broker_base.specs.rows.PacketTheorems.{handled_state};
ghost use Rattle.broker.specs.one_session.OneSession.{is_handshake, handshake_sends};

use broker_spec::Window;
use machine::Halted;
use packet::Packet;
use session::Session;

/// Returns true for PUBACK, PUBREC, PUBREL and PUBCOMP.
pub fn is_handshake(packet: &Packet) -> bool
    ensures { result ≡ is_handshake packet.now }
{
    matches!(
        packet,
        Packet::Puback(_) | Packet::Pubrec(_) | Packet::Pubrel(_) | Packet::Pubcomp(_)
    )
}

/// Handles such a packet in the session of a connected client. Waiting publications may start once
/// an entry is finished (MQTT 4.6).
pub fn do_handshake(
    session: &mut Session,
    window: Window,
    packet: &Packet,
    sent: &mut Vec<Packet>,
) -> Result<(), Halted>
    requires { is_handshake packet.now ≡ true }
    ensures state { OnOk result (session.new ≡ handled_state window packet.now session.old) }
    ensures sends { OnOk result
        (sent.new.items ≡ sent.old.items ++ handshake_sends window packet.now session.old) }
{
    match packet {
        Packet::Puback(id) => {
            session.on_puback(*id);
            session.fill_within(window.size(), sent)?;
        }
        Packet::Pubrec(id) => session.on_pubrec(*id, sent)?,
        Packet::Pubrel(id) => {
            session.release(*id);
            sent.push(Packet::Pubcomp(*id))?;
        }
        Packet::Pubcomp(id) => {
            session.on_pubcomp(*id);
            session.fill_within(window.size(), sent)?;
        }
        _ => {}
    }
    Ok(())
}
