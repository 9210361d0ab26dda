//! Requests.

ghost use Rattle.std.specs.Prelude.{◌≡◌};
ghost use Rattle.mq_status.specs.Prelude.{Answers, path_status, reply_of};

use httparse::Status as Parsed;
use httparse::spans::{EMPTY_HEADER_SPAN, parse_request};

/// The greatest length of a request's head.
pub const MAX_HEAD: usize = 8192;

/// The resource of a request.
#[derive(Clone, Copy, Debug, PartialEq, Eq)]
pub enum Resource {
    /// `/`, the status page.
    Page,
    /// `/metrics`, the metrics for Prometheus.
    Metrics,
}

/// The status of a response.
#[derive(Clone, Copy, Debug, PartialEq, Eq)]
pub enum Status {
    /// 200: the resource follows.
    Ok(Resource),
    /// 400: the head is not one of HTTP/1.
    BadRequest,
    /// 404: the path is neither `/` nor `/metrics`.
    NotFound,
    /// 405: the method is neither GET nor HEAD.
    MethodNotAllowed,
}

/// The response to a request.
#[derive(Clone, Copy, Debug, PartialEq, Eq)]
pub struct Reply {
    /// Its status.
    pub status: Status,
    /// The response has no body, because the method is HEAD.
    pub head_only: bool,
}

/// The step of an HTTP server after it read bytes from a connection.
#[derive(Clone, Copy, Debug, PartialEq, Eq)]
pub enum Answer {
    /// Read more: the head is not complete yet.
    Pending,
    /// Close the connection: the head is longer than [`MAX_HEAD`].
    Close,
    /// Write the response of [`crate::write_response`], then close the connection.
    Respond(Reply),
}

// The status of a path, if the method is allowed.
fn path_status(path: &[u8]) -> Status
    ensures { result ≡ path_status path.now }
{
    if path == b"/".as_slice() {
        return Status::Ok(Resource::Page);
    }
    if path == b"/metrics".as_slice() {
        return Status::Ok(Resource::Metrics);
    }
    Status::NotFound
}

// The response to a method and a path.
fn reply_to(method: &[u8], path: &[u8]) -> Reply
    ensures { result ≡ reply_of method.now path.now }
{
    let head_only = method == b"HEAD".as_slice();
    let status = if head_only || method == b"GET".as_slice() {
        path_status(path)
    } else {
        Status::MethodNotAllowed
    };
    Reply { status, head_only }
}

/// Returns what to do after `received`, all bytes that a connection has sent. At most [`MAX_HEAD`]
/// bytes are needed.
pub fn request(received: &[u8]) -> Answer
    ensures { Answers received.now result }
{
    let mut headers = [EMPTY_HEADER_SPAN; 64];
    match parse_request(received, &mut headers) {
        Ok(Parsed::Complete(head)) => {
            if head.len > MAX_HEAD {
                return Answer::Close;
            }
            Answer::Respond(reply_to(head.method.of(received), head.path.of(received)))
        }
        Ok(Parsed::Partial) => {
            if received.len() >= MAX_HEAD {
                return Answer::Close;
            }
            Answer::Pending
        }
        Err(_) => Answer::Respond(Reply {
            status: Status::BadRequest,
            head_only: false,
        }),
    }
}
