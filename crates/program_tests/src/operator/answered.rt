// Requests and their answers as bytes, and how they go over a device.

mod rows;
mod views;

use admin::{AdminView, MAX_LISTED, RequestReader, answer, serve_admin};
use rows::{METRICS, METRICS_BODY, METRICS_OF_ORDERS, PLAIN, ROWS, UNLOOKED};
use std::alloc::{AllocError, Global};
use std::test::Fail;
use views::{details, fill, session, unlooked};

// Returns the answer with this status, these fields and this body.
fn whole(alloc: Global, status: &str, fields: &str, body: &str) -> Result<String, AllocError> {
    let length = body.len();
    format!(in alloc;
        "HTTP/1.1 {status}\r\n{fields}Content-Length: {length}\r\nConnection: close\r\n\r\n{body}"
    )
}

// Returns true if a request is answered like this.
fn is_answered(
    alloc: Global,
    view: &AdminView,
    request: &[u8],
    answered: &[u8],
) -> Result<bool, AllocError> {
    Ok(answer(alloc, view, request)?.as_slice() == answered)
}

// Plays one row.
fn plays(
    alloc: Global,
    view: &AdminView,
    row: &(&str, &str, &str, &str),
) -> Result<bool, AllocError> {
    let (request, status, fields, body) = *row;
    let answered = whole(alloc, status, fields, body)?;
    is_answered(alloc, view, request.as_bytes(), answered.as_bytes())
}

// Returns how many of the rows are not as they should be.
fn wrong_rows(alloc: Global) -> Result<usize, AllocError> {
    let mut view = unlooked(alloc)?;
    fill(alloc, &mut view)?;
    let mut wrong = 0usize;
    for row in ROWS {
        if !plays(alloc, &view, row)? {
            wrong = wrong.saturating_add(1);
        }
    }
    Ok(wrong)
}

// Returns true if the metrics are these.
fn metrics_are(alloc: Global) -> Result<bool, AllocError> {
    let mut view = unlooked(alloc)?;
    fill(alloc, &mut view)?;
    plays(
        alloc,
        &view,
        &(
            "GET /metrics HTTP/1.1\r\n\r\n",
            "200 OK",
            METRICS,
            METRICS_BODY,
        ),
    )
}

// Returns true if health and another method have these answers where no primary serves.
fn refusals_are(alloc: Global) -> Result<bool, AllocError> {
    let view = unlooked(alloc)?;
    let health = "GET /healthz HTTP/1.1\r\n\r\n";
    let status = "503 Service Unavailable";
    let away = plays(
        alloc,
        &view,
        &(health, status, PLAIN, "503 Service Unavailable\n"),
    )?;
    let post = "POST /healthz HTTP/1.1\r\n\r\n";
    let status = "405 Method Not Allowed";
    let allow = format!(in alloc; "Allow: GET\r\n{PLAIN}")?;
    let body = "405 Method Not Allowed\n";
    Ok(away && plays(alloc, &view, &(post, status, allow.as_str(), body))?)
}

// Returns true if what only a look into the nodes shows is refused where nobody looked, and the
// metrics are without it.
fn unlooked_are(alloc: Global) -> Result<bool, AllocError> {
    let view = unlooked(alloc)?;
    for row in UNLOOKED {
        if !plays(alloc, &view, row)? {
            return Ok(false);
        }
    }
    let metrics = "GET /metrics HTTP/1.1\r\n\r\n";
    plays(
        alloc,
        &view,
        &(metrics, "200 OK", METRICS, METRICS_OF_ORDERS),
    )
}

// Returns true if a request of 4,097 bytes is too long, and one of 4,096 is not.
fn limit_is(alloc: Global) -> Result<bool, AllocError> {
    let view = unlooked(alloc)?;
    let long = vec![in alloc; b'A'; 4_097]?;
    let too_long = whole(
        alloc,
        "413 Payload Too Large",
        PLAIN,
        "413 Payload Too Large\n",
    )?;
    let malformed = whole(alloc, "400 Bad Request", PLAIN, "400 Bad Request\n")?;
    Ok(
        is_answered(alloc, &view, &long, too_long.as_bytes())?
            && is_answered(alloc, &view, &long[..4_096], malformed.as_bytes())?,
    )
}

// Returns how many bytes a reader takes, one at a time, until it needs no more.
fn fed(alloc: Global, request: &[u8]) -> Result<usize, AllocError> {
    let mut reader = RequestReader::new(alloc)?;
    for (count, byte) in request.iter().enumerate() {
        if reader.feed(&[*byte]) {
            return Ok(count);
        }
    }
    Ok(request.len())
}

// Returns how many sessions pages of 1,001 sessions list, one page after the other.
fn listed(alloc: Global) -> Result<(usize, usize), AllocError> {
    let mut view = unlooked(alloc)?;
    let mut sessions = Vec::new(alloc);
    for number in 0..=MAX_LISTED {
        let client = format!(in alloc; "client {number:04}")?;
        sessions.push(session(alloc, client.as_str(), None, 0)?)?;
    }
    view.details = Some(details(sessions, Vec::new(alloc)));
    let first = answer(alloc, &view, b"GET /sessions HTTP/1.1\r\n\r\n")?;
    let next = answer(
        alloc,
        &view,
        b"GET /sessions?after=client+0999 HTTP/1.1\r\n\r\n",
    )?;
    Ok((braces(&first), braces(&next)))
}

// Returns how many objects a page lists.
fn braces(page: &[u8]) -> usize {
    page.iter().filter(|byte| **byte == b'{').count()
}

// Returns true if a request is answered over a device as in memory.
fn is_served(alloc: Global, request: &[u8]) -> Result<bool, AllocError> {
    let view = unlooked(alloc)?;
    let mut input = request;
    let mut output = Vec::new(alloc);
    let served = serve_admin(alloc, &view, &mut input, &mut output).is_ok();
    Ok(served && is_answered(alloc, &view, request, &output)?)
}

#[test]
fn requests_have_their_answers(rt: HostRuntime) -> Result<(), Fail> {
    assert_eq!(rt; wrong_rows(rt.alloc())?, 0);
    assert!(rt; metrics_are(rt.alloc())?);
    assert!(rt; refusals_are(rt.alloc())?);
    assert!(rt; unlooked_are(rt.alloc())?);
    assert!(rt; limit_is(rt.alloc())?);
    Ok(())
}

#[test]
fn pages_hold_a_thousand_sessions(rt: HostRuntime) -> Result<(), Fail> {
    assert_eq!(rt; listed(rt.alloc())?, (1_000, 1));
    Ok(())
}

#[test]
fn a_reader_asks_for_what_is_missing(rt: HostRuntime) -> Result<(), Fail> {
    let long = vec![in rt.alloc(); b'A'; 5_000]?;
    assert_eq!(rt; fed(rt.alloc(), b"GET / HTTP/1.1\r\nA: b\r\n\r\nmore")?, 23);
    assert_eq!(rt; fed(rt.alloc(), b"GET / HTTP/1.1\r\nA: b\r\n")?, 22);
    assert_eq!(rt; fed(rt.alloc(), b"GET / FTP")?, 6);
    assert_eq!(rt; fed(rt.alloc(), &long)?, 4_096);
    Ok(())
}

#[test]
fn a_device_gets_the_answer(rt: HostRuntime) -> Result<(), Fail> {
    assert!(rt; is_served(rt.alloc(), b"GET /healthz HTTP/1.1\r\n\r\n")?);
    assert!(rt; is_served(rt.alloc(), b"GET /healthz")?);
    assert!(rt; is_served(rt.alloc(), b"")?);
    Ok(())
}
