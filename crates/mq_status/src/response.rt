//! Responses.

ghost use Rattle.std.specs.Prelude.{◌≡◌, IfOk, OnOk};
ghost use Rattle.mq_status.specs.Prelude.{Appends, body_text, content_type, head_lines, response_text, status_lines};

use crate::http::{Reply, Resource, Status};
use crate::metrics::Metrics;
use crate::page::{SessionRow, write_page};
use crate::prometheus::write_prometheus;
use std::alloc::Global;
use std::io;
use std::io::Write;

// The body of a response.
fn body_of(
    alloc: Global,
    status: Status,
    metrics: &Metrics,
    rows: &[SessionRow],
) -> io::Result<Vec<u8>>
    ensures { IfOk result (λ body. body.items ≡ body_text status metrics.now rows.now) }
{
    let mut body = Vec::new(alloc);
    match status {
        Status::Ok(Resource::Page) => write_page(&mut body, metrics, rows)?,
        Status::Ok(Resource::Metrics) => write_prometheus(&mut body, metrics)?,
        Status::BadRequest => body.extend_from_slice(b"bad request\n")?,
        Status::NotFound => body.extend_from_slice(b"not found\n")?,
        Status::MethodNotAllowed => body.extend_from_slice(b"method not allowed\n")?,
    }
    Ok(body)
}

// The end of the status line, and the headers that depend on the status.
fn status_lines(status: Status) -> &'static str
    ensures { result.now ≡ status_lines status }
{
    match status {
        Status::Ok(_) => "200 OK",
        Status::BadRequest => "400 Bad Request",
        Status::NotFound => "404 Not Found",
        Status::MethodNotAllowed => "405 Method Not Allowed\r\nAllow: GET, HEAD",
    }
}

// The type of the body.
fn content_type(status: Status) -> &'static str
    ensures { result.now ≡ content_type status }
{
    match status {
        Status::Ok(Resource::Page) => "text/html; charset=utf-8",
        Status::Ok(Resource::Metrics) => "text/plain; version=0.0.4; charset=utf-8",
        _ => "text/plain; charset=utf-8",
    }
}

// Writes the head of a response whose body has this length.
fn write_head<W: Write>(output: &mut W, status: Status, length: usize) -> io::Result<()>
    ensures { OnOk result (Appends (W.contents output.old) (W.contents output.new)
        (head_lines status length)) }
{
    let (lines, kind) = (status_lines(status), content_type(status));
    write!(
        output,
        "HTTP/1.1 {lines}\r\nContent-Type: {kind}\r\nContent-Length: {length}\r\n\
        Cache-Control: no-store\r\nConnection: close\r\n\r\n"
    )
}

/// Appends the response to a request. `rows` are the rows of the page; they are used only if the
/// status is `Ok(Page)`. Then close the connection.
pub fn write_response<W: Write>(
    alloc: Global,
    output: &mut W,
    reply: Reply,
    metrics: &Metrics,
    rows: &[SessionRow],
) -> io::Result<()>
    ensures { OnOk result (Appends (W.contents output.old) (W.contents output.new)
        (response_text reply metrics.now rows.now)) }
{
    let body = body_of(alloc, reply.status, metrics, rows)?;
    let text = body.as_slice();
    write_head(output, reply.status, text.len())?;
    if reply.head_only {
        return Ok(());
    }
    output.write_all(text)
}
