//! Files of passwords, and lines of the log.

use crate::texts::text_of;
use mq_end::CloseReason;
use mq_packet::RefusalCode;
use mq_route::HubClose;
use mq_status::{LogLine, password_line, read_passwords, read_users, write_log};
use std::alloc::Global;
use std::process::Abort;
use std::test::Fail;

// The SHA-256 digest of `salt` followed by `secret`.
const HASHED: &str = "b:sha256:salt:\
    bede90386d450cea8b77b822f8887065e4e5abf132c2f9dccfcc7fbd4cba5e35";

const FILES: [(&str, &str); 12] = [
    ("", ""),
    ("# a comment\r\n\n", ""),
    ("a:secret\nb:other\r\n", "1 a yes;2 b no;"),
    ("a:sec:ret", "1 a no;"),
    ("a:", "1 a no;"),
    ("a\n", "line 1: no colon follows the name"),
    ("\n:secret", "line 2: the name is empty"),
    ("a:secret\nb\0:x", "line 2: the name is not a text of MQTT"),
    (
        "a:sha256:salt",
        "line 1: a salt, a colon and 64 hexadecimal digits must follow \"sha256:\"",
    ),
    (
        "a:sha256:salt:00",
        "line 1: a salt, a colon and 64 hexadecimal digits must follow \"sha256:\"",
    ),
    (HASHED, "1 b yes;"),
    ("a:secret\na:other", "1 a yes;2 a no;"),
];

// The entries of a file, and whether each accepts `secret`.
fn entries_of(alloc: Global, file: &[u8]) -> Result<String, Fail> {
    let entries = match read_passwords(alloc, file) {
        Ok(entries) => entries,
        Err(error) => return Ok(format!(in alloc; "{error}")?),
    };
    let mut text = String::new(alloc);
    for entry in &entries {
        let answer = if entry.stored.check(b"secret") {
            "yes"
        } else {
            "no"
        };
        let (line, name) = (entry.line, entry.name.as_str());
        write!(text, "{line} {name} {answer};")?;
    }
    Ok(text)
}

#[test]
fn files(rt: HostRuntime) -> Result<(), Fail> {
    for (file, expected) in &FILES {
        let entries = entries_of(rt.alloc(), file.as_bytes())?;
        assert_eq!(rt; entries.as_str(), *expected);
    }
    let entries = entries_of(rt.alloc(), b"a:\xff")?;
    assert_eq!(rt; entries.as_str(), "the file is not UTF-8");
    Ok(())
}

// The tables of a file: names and passwords, then names, salts and first bytes of digests.
fn tables_of(alloc: Global, file: &[u8]) -> Result<String, Fail> {
    let tables = match read_users(alloc, file) {
        Ok(tables) => tables,
        Err(error) => return Ok(format!(in alloc; "{error}")?),
    };
    let mut text = String::new(alloc);
    for user in tables.users.as_slice() {
        let (name, password) = (user.name.as_str(), user.password.as_slice());
        write!(text, "{name} {password:?};")?;
    }
    for user in tables.hashed_users.as_slice() {
        let (name, salt, first) = (user.name.as_str(), user.salt.as_slice(), user.digest[0]);
        write!(text, "{name} {salt:?} {first:x};")?;
    }
    Ok(text)
}

#[test]
fn tables(rt: HostRuntime) -> Result<(), Fail> {
    let alloc = rt.alloc();
    let file = format!(in alloc; "a:x\n{HASHED}\nc:yz\n")?;
    let rows = [
        (
            file.as_str(),
            "a [120];c [121, 122];b [115, 97, 108, 116] be;",
        ),
        ("", ""),
        ("a:x\nb", "line 2: no colon follows the name"),
    ];
    for (file, expected) in &rows {
        let tables = tables_of(alloc, file.as_bytes())?;
        assert_eq!(rt; tables.as_str(), *expected);
    }
    Ok(())
}

// The line of a name, a salt and a password, or the error.
fn line_of(alloc: Global, name: &str, salt: &str, password: &[u8]) -> Result<String, Fail> {
    match password_line(alloc, name, salt, password) {
        Ok(line) => Ok(line),
        Err(error) => Ok(format!(in alloc; "{error}")?),
    }
}

#[test]
fn lines(rt: HostRuntime) -> Result<(), Fail> {
    let rows = [
        ("b", "salt", HASHED),
        ("", "salt", "the name is not allowed in a file of passwords"),
        (
            "#b",
            "salt",
            "the name is not allowed in a file of passwords",
        ),
        (
            "a:b",
            "salt",
            "the name is not allowed in a file of passwords",
        ),
        (
            "a\nb",
            "salt",
            "the name is not allowed in a file of passwords",
        ),
        (
            "b",
            "sa:lt",
            "the salt is not allowed in a file of passwords",
        ),
    ];
    for (name, salt, expected) in &rows {
        let line = line_of(rt.alloc(), *name, *salt, b"secret")?;
        assert_eq!(rt; line.as_str(), *expected);
    }
    let long = vec![in rt.alloc(); b'x'; 65_536]?;
    let line = line_of(rt.alloc(), "b", "salt", long.as_slice())?;
    assert_eq!(rt; line.as_str(), "the password has over 65,535 bytes");
    Ok(())
}

// A line of the log.
fn logged(alloc: Global, line: LogLine) -> Result<String, Fail> {
    let mut out = Vec::new(alloc);
    write_log(&mut out, line)?;
    text_of(alloc, out.as_slice())
}

// Fails unless each line of the log is the expected one.
fn expect_lines(alloc: Global, rows: &[(LogLine<'_>, &str)]) -> Result<(), Fail> {
    for (line, expected) in rows {
        let text = logged(alloc, *line)?;
        if text.as_str() != *expected {
            return Err(Fail::new(text.as_str()));
        }
    }
    Ok(())
}

#[test]
fn lines_about_clients(rt: HostRuntime) -> Result<(), Fail> {
    let (client, address) = ("a\nclosed client=b", "127.0.0.1:5");
    let reason = HubClose::Own(CloseReason::KeepAlive);
    let rows = [
        (
            LogLine::Connected { client, address },
            "connected client=a%0aclosed%20client=b address=127.0.0.1:5\n",
        ),
        (
            LogLine::Closed { client, reason },
            "closed client=a%0aclosed%20client=b code=C5 reason=\"keep-alive expired\"\n",
        ),
        (
            LogLine::SessionEnded {
                client: "\u{7f}\u{1b}[1m",
            },
            "session-ended client=%7f%1b[1m\n",
        ),
        (
            LogLine::Missed {
                client: "c",
                messages: 12,
            },
            "missed client=c messages=12\n",
        ),
        (
            LogLine::Slow {
                client: "c",
                pending: 99,
            },
            "slow client=c pending=99\n",
        ),
    ];
    expect_lines(rt.alloc(), &rows)
}

#[test]
fn lines_about_addresses(rt: HostRuntime) -> Result<(), Fail> {
    let address = "127.0.0.1:5";
    let (reason, code) = (HubClose::PeerEnded, RefusalCode::NotAuthorized);
    let rows = [
        (
            LogLine::ClosedEarly { address, reason },
            "closed address=127.0.0.1:5 code=C10 reason=\"connection ended by peer\"\n",
        ),
        (
            LogLine::Refused { address, code },
            "refused address=127.0.0.1:5 code=5 reason=\"not authorized\"\n",
        ),
    ];
    expect_lines(rt.alloc(), &rows)
}
