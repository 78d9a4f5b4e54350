// The fields that state a script: its world, and each line after the first.

ghost use Rattle.std.specs.Prelude.{◌≡◌, ◌++◌, ◌∷◌, [], IfOk, OnOk, map, codes};
ghost use Rattle.std.specs.List.{flat_map};
ghost use Rattle.packet_base.specs.QoS.{qos_number};
ghost use Rattle.program_rows.specs.AnswerFields.{flag_fields, number_fields, numbers_fields};
ghost use Rattle.program_rows.specs.ScriptFields.{amount_field, client_fields, line_fields};
ghost use Rattle.program_rows.specs.ScriptFields.{opening_fields, publication_fields, script_answers};

use crate::answers::{only, put_flag, put_number, put_text};
use crate::table_steps::put_numbers;
use packet_base::{ClientId, QoS};
use rows::Fields;
use script::{Amount, Opening, Script, ScriptLine};
use session_base::Publication;
use std::alloc::{AllocError, Global};
use topics::Filter;

/// Returns the fields of each line of a script.
pub(crate) fn script_answers(alloc: Global, script: &Script) -> Result<Vec<Fields>, AllocError>
    ensures { IfOk result (λ answers. answers.items ≡ script_answers script.now) }
{
    let mut answers = only(alloc, opening_fields(alloc, &script.opening)?)?;
    append_lines(alloc, script.lines.as_slice(), &mut answers)?;
    Ok(answers)
}

fn append_lines(
    alloc: Global,
    lines: &[ScriptLine],
    answers: &mut Vec<Fields>,
) -> Result<(), AllocError>
    ensures { OnOk result (answers.new.items ≡ answers.old.items ++ map line_fields lines.now) }
{
    if let [line, rest @ ..] = lines {
        append_line(alloc, line, answers)?;
        append_lines(alloc, rest, answers)?;
    }
    Ok(())
}

fn append_line(
    alloc: Global,
    line: &ScriptLine,
    answers: &mut Vec<Fields>,
) -> Result<(), AllocError>
    ensures { OnOk result (answers.new.items ≡ answers.old.items ++ line_fields line.now ∷ []) }
{
    let mut out = Fields::new(alloc);
    put_line(line, &mut out)?;
    answers.push(out)?;
    Ok(())
}

fn opening_fields(alloc: Global, opening: &Opening) -> Result<Fields, AllocError>
    ensures { IfOk result (λ fields. fields ≡ opening_fields opening.now) }
{
    let mut out = Fields::new(alloc);
    put_number("world", u64::from(opening.nodes), &mut out)?;
    put_numbers("member", opening.config.members.as_slice(), &mut out)?;
    put_number("primary", u64::from(opening.config.primary), &mut out)?;
    put_clients(opening.clients.as_slice(), &mut out)?;
    Ok(out)
}

fn put_clients(clients: &[ClientId], out: &mut Fields) -> Result<(), AllocError>
    ensures { OnOk result (out.new ≡ out.old ++ flat_map client_fields clients.now) }
{
    if let [client, rest @ ..] = clients {
        put_text("client", client.as_str(), out)?;
        put_clients(rest, out)?;
    }
    Ok(())
}

fn put_line(line: &ScriptLine, out: &mut Fields) -> Result<(), AllocError>
    ensures { OnOk result (out.new ≡ out.old ++ line_fields line.now) }
{
    match line {
        ScriptLine::Assign(members, primary) => put_assign(members.as_slice(), *primary, out),
        ScriptLine::Deliver(message) => put_number("deliver", *message, out),
        ScriptLine::Tick(node) => put_number("tick", *node, out),
        ScriptLine::Cut(node) => put_number("cut", *node, out),
        ScriptLine::Crash(node) => put_number("crash", *node, out),
        ScriptLine::Expel(client, node) => put_client_and_node("expel", client, *node, out),
        ScriptLine::Open(client, node) => put_client_and_node("open", client, *node, out),
        ScriptLine::CarryUp(connection, amount) => put_carried("up", *connection, *amount, out),
        ScriptLine::CarryDown(connection, amount) => put_carried("down", *connection, *amount, out),
        ScriptLine::Abandon(client) => put_client("abandon", client, out),
        ScriptLine::Disconnect(client) => put_client("disconnect", client, out),
        ScriptLine::Notice(connection) => put_number("notice", *connection, out),
        ScriptLine::Publish(client, sent) => put_publish(client, sent, out),
        ScriptLine::Subscribe(client, filter, qos) => put_subscribe(client, filter, *qos, out),
        ScriptLine::Unsubscribe(client, filter) => put_filter("unsubscribe", client, filter, out),
    }
}

fn put_assign(members: &[u64], primary: u64, out: &mut Fields) -> Result<(), AllocError>
    ensures { OnOk result (out.new ≡ out.old ++ codes "assign"
        ∷ numbers_fields (codes "member") members.now
        ++ number_fields (codes "primary") primary) }
{
    out.text("assign")?;
    put_members(members, out)?;
    put_number("primary", primary, out)
}

fn put_members(members: &[u64], out: &mut Fields) -> Result<(), AllocError>
    ensures { OnOk result (out.new ≡ out.old ++ numbers_fields (codes "member") members.now) }
{
    if let [member, rest @ ..] = members {
        put_number("member", *member, out)?;
        put_members(rest, out)?;
    }
    Ok(())
}

fn put_client(word: &str, client: &ClientId, out: &mut Fields) -> Result<(), AllocError>
    ensures { OnOk result (out.new ≡ out.old ++ word.now ∷ client.now ∷ []) }
{
    put_text(word, client.as_str(), out)
}

fn put_client_and_node(
    word: &str,
    client: &ClientId,
    node: u64,
    out: &mut Fields,
) -> Result<(), AllocError>
    ensures { OnOk result
        (out.new ≡ out.old ++ word.now ∷ number_fields client.now node) }
{
    put_text(word, client.as_str(), out)?;
    out.number(node)
}

fn put_carried(
    word: &str,
    connection: u64,
    amount: Amount,
    out: &mut Fields,
) -> Result<(), AllocError>
    ensures { OnOk result
        (out.new ≡ out.old ++ number_fields word.now connection ++ amount_field amount ∷ []) }
{
    put_number(word, connection, out)?;
    match amount {
        Amount::All => out.text("all"),
        Amount::Bytes(count) => out.number(count),
    }
}

fn put_publish(client: &ClientId, sent: &Publication, out: &mut Fields) -> Result<(), AllocError>
    ensures { OnOk result
        (out.new ≡ out.old ++ codes "publish" ∷ client.now ∷ publication_fields sent.now) }
{
    put_client("publish", client, out)?;
    put_publication(sent, out)
}

fn put_publication(sent: &Publication, out: &mut Fields) -> Result<(), AllocError>
    ensures { OnOk result (out.new ≡ out.old ++ publication_fields sent.now) }
{
    put_text("topic", sent.topic.as_str(), out)?;
    put_marks(sent.qos, sent.retain, out)?;
    put_bytes("payload", sent.payload.as_slice(), out)
}

fn put_marks(qos: QoS, retain: bool, out: &mut Fields) -> Result<(), AllocError>
    ensures { OnOk result (out.new ≡ out.old ++ number_fields (codes "qos") (qos_number qos)
        ++ flag_fields (codes "retain") retain) }
{
    put_number("qos", u64::from(qos.number()), out)?;
    put_flag("retain", retain, out)
}

fn put_bytes(word: &str, bytes: &[u8], out: &mut Fields) -> Result<(), AllocError>
    ensures { OnOk result (out.new ≡ out.old ++ word.now ∷ bytes.now ∷ []) }
{
    out.text(word)?;
    out.bytes(bytes)
}

fn put_subscribe(
    client: &ClientId,
    filter: &Filter,
    qos: QoS,
    out: &mut Fields,
) -> Result<(), AllocError>
    ensures { OnOk result
        (out.new ≡ out.old ++ line_fields (ScriptLine.Subscribe client.now filter.now qos)) }
{
    put_filter("subscribe", client, filter, out)?;
    put_number("qos", u64::from(qos.number()), out)
}

fn put_filter(
    word: &str,
    client: &ClientId,
    filter: &Filter,
    out: &mut Fields,
) -> Result<(), AllocError>
    ensures { OnOk result (out.new
        ≡ out.old ++ word.now ∷ client.now ∷ codes "filter" ∷ filter.now ∷ []) }
{
    put_text(word, client.as_str(), out)?;
    put_text("filter", filter.as_str(), out)
}
