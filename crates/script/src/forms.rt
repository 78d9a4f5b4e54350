// The forms of the lines after the first, by the fields after their word.

ghost use Rattle.std.specs.Prelude.{◌≡◌, Some, None, IfOk, IsErrOf};
ghost use Rattle.script.specs.declared.script_line.ScriptLine.TheVariants as lines;
ghost use Rattle.script.specs.Fields.{parse_amount, parse_client, parse_filter, parse_number, parse_numbers, texts};
ghost use Rattle.script.specs.Inside.LineReader.{one, only, parse_publication, parse_publish, parse_subscribe, two};

use crate::error::FieldFault;
use crate::script_line::ScriptLine;
use crate::values::{amount, client, filter, number, numbers, payload, qos, retain, topic};
use packet_base::ClientId;
use session_base::Publication;
use std::alloc::Global;

// Returns the number of a line with one field after its word.
fn one_number(fields: &[&str]) -> Result<u64, FieldFault>
    ensures value { IfOk result (λ number. only parse_number (texts fields.now) ≡ Some number) }
    ensures form { IsErrOf result FieldFault.Form → only parse_number (texts fields.now) ≡ None }
{
    match fields {
        [field] => number(field),
        _ => Err(FieldFault::Form),
    }
}

// Returns the client of a line with one field after its word.
fn one_client(alloc: Global, fields: &[&str]) -> Result<ClientId, FieldFault>
    ensures value { IfOk result (λ client. only parse_client (texts fields.now) ≡ Some client) }
    ensures form { IsErrOf result FieldFault.Form → only parse_client (texts fields.now) ≡ None }
{
    match fields {
        [field] => client(alloc, field),
        _ => Err(FieldFault::Form),
    }
}

/// Reads the fields of `deliver 0`: message 0 reaches its receiver.
pub(crate) fn deliver(fields: &[&str]) -> Result<ScriptLine, FieldFault>
    ensures value { IfOk result (λ line.
        one lines.Deliver parse_number (texts fields.now) ≡ Some line) }
    ensures form { IsErrOf result FieldFault.Form
        → one lines.Deliver parse_number (texts fields.now) ≡ None }
{
    Ok(ScriptLine::Deliver(one_number(fields)?))
}

/// Reads the fields of `tick 1`: time passes at node 1.
pub(crate) fn tick(fields: &[&str]) -> Result<ScriptLine, FieldFault>
    ensures value { IfOk result (λ line.
        one lines.Tick parse_number (texts fields.now) ≡ Some line) }
    ensures form { IsErrOf result FieldFault.Form
        → one lines.Tick parse_number (texts fields.now) ≡ None }
{
    Ok(ScriptLine::Tick(one_number(fields)?))
}

/// Reads the fields of `cut 1`: node 1 cuts its log.
pub(crate) fn cut(fields: &[&str]) -> Result<ScriptLine, FieldFault>
    ensures value { IfOk result (λ line.
        one lines.Cut parse_number (texts fields.now) ≡ Some line) }
    ensures form { IsErrOf result FieldFault.Form
        → one lines.Cut parse_number (texts fields.now) ≡ None }
{
    Ok(ScriptLine::Cut(one_number(fields)?))
}

/// Reads the fields of `crash 1`: node 1 stops for good.
pub(crate) fn crash(fields: &[&str]) -> Result<ScriptLine, FieldFault>
    ensures value { IfOk result (λ line.
        one lines.Crash parse_number (texts fields.now) ≡ Some line) }
    ensures form { IsErrOf result FieldFault.Form
        → one lines.Crash parse_number (texts fields.now) ≡ None }
{
    Ok(ScriptLine::Crash(one_number(fields)?))
}

/// Reads the fields of `notice 1`: the node notices the end of connection 1.
pub(crate) fn notice(fields: &[&str]) -> Result<ScriptLine, FieldFault>
    ensures value { IfOk result (λ line.
        one lines.Notice parse_number (texts fields.now) ≡ Some line) }
    ensures form { IsErrOf result FieldFault.Form
        → one lines.Notice parse_number (texts fields.now) ≡ None }
{
    Ok(ScriptLine::Notice(one_number(fields)?))
}

/// Reads the fields of `abandon a`: client a loses its connection.
pub(crate) fn abandon(alloc: Global, fields: &[&str]) -> Result<ScriptLine, FieldFault>
    ensures value { IfOk result (λ line.
        one lines.Abandon parse_client (texts fields.now) ≡ Some line) }
    ensures form { IsErrOf result FieldFault.Form
        → one lines.Abandon parse_client (texts fields.now) ≡ None }
{
    Ok(ScriptLine::Abandon(one_client(alloc, fields)?))
}

/// Reads the fields of `disconnect a`: client a sends DISCONNECT and closes.
pub(crate) fn disconnect(alloc: Global, fields: &[&str]) -> Result<ScriptLine, FieldFault>
    ensures value { IfOk result (λ line.
        one lines.Disconnect parse_client (texts fields.now) ≡ Some line) }
    ensures form { IsErrOf result FieldFault.Form
        → one lines.Disconnect parse_client (texts fields.now) ≡ None }
{
    Ok(ScriptLine::Disconnect(one_client(alloc, fields)?))
}

/// Reads the fields of `assign 2,3 2`: a ballot of members 2 and 3, with primary 2.
pub(crate) fn assign(alloc: Global, fields: &[&str]) -> Result<ScriptLine, FieldFault>
    ensures value { IfOk result (λ line.
        two lines.Assign parse_numbers parse_number (texts fields.now) ≡ Some line) }
    ensures form { IsErrOf result FieldFault.Form
        → two lines.Assign parse_numbers parse_number (texts fields.now) ≡ None }
{
    let [members, primary] = fields else {
        return Err(FieldFault::Form);
    };
    let members = numbers(alloc, members)?;
    Ok(ScriptLine::Assign(members, number(primary)?))
}

/// Reads the fields of `open a 1`: client a opens a connection to node 1.
pub(crate) fn open_connection(alloc: Global, fields: &[&str]) -> Result<ScriptLine, FieldFault>
    ensures value { IfOk result (λ line.
        two lines.Open parse_client parse_number (texts fields.now) ≡ Some line) }
    ensures form { IsErrOf result FieldFault.Form
        → two lines.Open parse_client parse_number (texts fields.now) ≡ None }
{
    let [name, node] = fields else {
        return Err(FieldFault::Form);
    };
    let name = client(alloc, name)?;
    Ok(ScriptLine::Open(name, number(node)?))
}

/// Reads the fields of `expel b 1`: node 1 proposes that the session of client b ends.
pub(crate) fn expel(alloc: Global, fields: &[&str]) -> Result<ScriptLine, FieldFault>
    ensures value { IfOk result (λ line.
        two lines.Expel parse_client parse_number (texts fields.now) ≡ Some line) }
    ensures form { IsErrOf result FieldFault.Form
        → two lines.Expel parse_client parse_number (texts fields.now) ≡ None }
{
    let [name, node] = fields else {
        return Err(FieldFault::Form);
    };
    let name = client(alloc, name)?;
    Ok(ScriptLine::Expel(name, number(node)?))
}

/// Reads the fields of `up 1 all`: all bytes of connection 1 go up to its node.
pub(crate) fn carry_up(fields: &[&str]) -> Result<ScriptLine, FieldFault>
    ensures value { IfOk result (λ line.
        two lines.CarryUp parse_number parse_amount (texts fields.now) ≡ Some line) }
    ensures form { IsErrOf result FieldFault.Form
        → two lines.CarryUp parse_number parse_amount (texts fields.now) ≡ None }
{
    let [connection, bytes] = fields else {
        return Err(FieldFault::Form);
    };
    let connection = number(connection)?;
    Ok(ScriptLine::CarryUp(connection, amount(bytes)?))
}

/// Reads the fields of `down 1 all`: all bytes of connection 1 go down to its client.
pub(crate) fn carry_down(fields: &[&str]) -> Result<ScriptLine, FieldFault>
    ensures value { IfOk result (λ line.
        two lines.CarryDown parse_number parse_amount (texts fields.now) ≡ Some line) }
    ensures form { IsErrOf result FieldFault.Form
        → two lines.CarryDown parse_number parse_amount (texts fields.now) ≡ None }
{
    let [connection, bytes] = fields else {
        return Err(FieldFault::Form);
    };
    let connection = number(connection)?;
    Ok(ScriptLine::CarryDown(connection, amount(bytes)?))
}

/// Reads the fields of `publish a t/1 2 0 78`: topic, QoS, RETAIN and payload in hexadecimal.
pub(crate) fn publish(alloc: Global, fields: &[&str]) -> Result<ScriptLine, FieldFault>
    ensures value { IfOk result (λ line. parse_publish (texts fields.now) ≡ Some line) }
    ensures form { IsErrOf result FieldFault.Form → parse_publish (texts fields.now) ≡ None }
{
    let [name, topic_field, qos_field, retain_field, payload_field] = fields else {
        return Err(FieldFault::Form);
    };
    let name = client(alloc, name)?;
    let sent = publication(alloc, topic_field, qos_field, retain_field, payload_field)?;
    Ok(ScriptLine::Publish(name, sent))
}

#[tactic(auto, unfolding(crate::specs::Inside::LineReader::parse_publication))]
fn publication(
    alloc: Global,
    topic_field: &str,
    qos_field: &str,
    retain_field: &str,
    payload_field: &str,
) -> Result<Publication, FieldFault>
    ensures value { IfOk result (λ sent.
        parse_publication topic_field.now qos_field.now retain_field.now payload_field.now
        ≡ Some sent) }
    ensures form { IsErrOf result FieldFault.Form
        → parse_publication topic_field.now qos_field.now retain_field.now payload_field.now
        ≡ None }
{
    let topic = topic(alloc, topic_field)?;
    let qos = qos(qos_field)?;
    let retain = retain(retain_field)?;
    Ok(Publication {
        retain,
        qos,
        topic,
        payload: payload(alloc, payload_field)?,
    })
}

/// Reads the fields of `subscribe b t/# 2`: client b subscribes, at most at QoS 2.
pub(crate) fn subscribe(alloc: Global, fields: &[&str]) -> Result<ScriptLine, FieldFault>
    ensures value { IfOk result (λ line. parse_subscribe (texts fields.now) ≡ Some line) }
    ensures form { IsErrOf result FieldFault.Form → parse_subscribe (texts fields.now) ≡ None }
{
    let [name, filter_field, qos_field] = fields else {
        return Err(FieldFault::Form);
    };
    let name = client(alloc, name)?;
    let filter = filter(alloc, filter_field)?;
    Ok(ScriptLine::Subscribe(name, filter, qos(qos_field)?))
}

/// Reads the fields of `unsubscribe b t/#`: client b unsubscribes.
pub(crate) fn unsubscribe(alloc: Global, fields: &[&str]) -> Result<ScriptLine, FieldFault>
    ensures value { IfOk result (λ line.
        two lines.Unsubscribe parse_client parse_filter (texts fields.now) ≡ Some line) }
    ensures form { IsErrOf result FieldFault.Form
        → two lines.Unsubscribe parse_client parse_filter (texts fields.now) ≡ None }
{
    let [name, filter_field] = fields else {
        return Err(FieldFault::Form);
    };
    let name = client(alloc, name)?;
    Ok(ScriptLine::Unsubscribe(name, filter(alloc, filter_field)?))
}
