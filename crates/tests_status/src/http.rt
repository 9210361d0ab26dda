//! Heads of requests and their responses.

use crate::texts::text_of;
use mq_status::{Answer, Metrics, request, write_response};
use std::alloc::Global;
use std::process::Abort;
use std::test::Fail;

const ROWS: [(&str, &str); 10] = [
    ("", "pending"),
    ("GET / HTTP/1.1\r\nHost: a\r\n", "pending"),
    (
        "HEAD / HTTP/1.1\r\nHost: a\r\n\r\n",
        "HTTP/1.1 200 OK\r\nContent-Type: text/html; charset=utf-8\r\nContent-Length: 2566\r\n\
         Cache-Control: no-store\r\nConnection: close\r\n\r\n",
    ),
    (
        "HEAD /metrics HTTP/1.0\r\n\r\n",
        "HTTP/1.1 200 OK\r\nContent-Type: text/plain; version=0.0.4; charset=utf-8\r\n\
         Content-Length: 4071\r\nCache-Control: no-store\r\nConnection: close\r\n\r\n",
    ),
    (
        "GET /metrics/ HTTP/1.1\r\n\r\n",
        "HTTP/1.1 404 Not Found\r\nContent-Type: text/plain; charset=utf-8\r\n\
         Content-Length: 10\r\nCache-Control: no-store\r\nConnection: close\r\n\r\nnot found\n",
    ),
    (
        "HEAD /secret HTTP/1.1\r\n\r\n",
        "HTTP/1.1 404 Not Found\r\nContent-Type: text/plain; charset=utf-8\r\n\
         Content-Length: 10\r\nCache-Control: no-store\r\nConnection: close\r\n\r\n",
    ),
    (
        "POST / HTTP/1.1\r\nContent-Length: 1\r\n\r\nx",
        "HTTP/1.1 405 Method Not Allowed\r\nAllow: GET, HEAD\r\n\
         Content-Type: text/plain; charset=utf-8\r\nContent-Length: 19\r\n\
         Cache-Control: no-store\r\nConnection: close\r\n\r\nmethod not allowed\n",
    ),
    (
        "get / HTTP/1.1\r\n\r\n",
        "HTTP/1.1 405 Method Not Allowed\r\nAllow: GET, HEAD\r\n\
         Content-Type: text/plain; charset=utf-8\r\nContent-Length: 19\r\n\
         Cache-Control: no-store\r\nConnection: close\r\n\r\nmethod not allowed\n",
    ),
    (
        "GET / HTTP/2.0\r\n\r\n",
        "HTTP/1.1 400 Bad Request\r\nContent-Type: text/plain; charset=utf-8\r\n\
         Content-Length: 12\r\nCache-Control: no-store\r\nConnection: close\r\n\r\nbad request\n",
    ),
    (
        "\u{10}\0\u{4}MQTT",
        "HTTP/1.1 400 Bad Request\r\nContent-Type: text/plain; charset=utf-8\r\n\
         Content-Length: 12\r\nCache-Control: no-store\r\nConnection: close\r\n\r\nbad request\n",
    ),
];

// The answer to the bytes of a connection.
fn answer_to(alloc: Global, received: &[u8]) -> Result<String, Fail> {
    match request(received) {
        Answer::Pending => Ok("pending".to_string(alloc)?),
        Answer::Close => Ok("close".to_string(alloc)?),
        Answer::Respond(reply) => {
            let mut out = Vec::new(alloc);
            write_response(alloc, &mut out, reply, &Metrics::new(), &[])?;
            text_of(alloc, out.as_slice())
        }
    }
}

#[test]
fn responses(rt: HostRuntime) -> Result<(), Fail> {
    for (head, expected) in &ROWS {
        let answer = answer_to(rt.alloc(), head.as_bytes())?;
        assert_eq!(rt; answer.as_str(), *expected);
    }
    Ok(())
}

// The answer to a head with a field of this length, with the last `missing` bytes missing.
fn answer_to_long(alloc: Global, length: usize, missing: usize) -> Result<String, Fail> {
    let mut head = Vec::new(alloc);
    head.extend_from_slice(b"HEAD /x HTTP/1.1\r\na: ")?;
    for _ in 0..length {
        head.push(b'a')?;
    }
    head.extend_from_slice(b"\r\n\r\n")?;
    let end = head.len().saturating_sub(missing);
    answer_to(alloc, &head.as_slice()[..end])
}

#[test]
fn long_heads(rt: HostRuntime) -> Result<(), Fail> {
    let alloc = rt.alloc();
    let rows = [
        (8167, 0, "HTTP/1."),
        (8167, 1, "pending"),
        (8168, 0, "close"),
        (8168, 1, "close"),
        (8168, 2, "pending"),
        (9000, 0, "close"),
    ];
    for (length, missing, expected) in &rows {
        let answer = answer_to_long(alloc, *length, *missing)?;
        assert!(rt; answer.as_str().starts_with(*expected));
    }
    Ok(())
}
