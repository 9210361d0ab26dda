//! The numbers of an event as bytes.

ghost use Rattle.std.specs.Prelude.{◌≡◌, ◌+◌, ◌≤◌, ◌∷◌, ◌++◌, length};
ghost use Rattle.mq_record.specs.Encoding.{conn_bytes, eight_bytes, four_bytes};
ghost use Rattle.mq_record.specs.Reading.{conn_in, eight_in, four_in};

use mq_route::Conn;
use mq_wire::number_at;

pub(crate) fn with_conn(tag: u8, conn: Conn) -> [u8; 7]
    ensures { result ≡ tag ∷ conn_bytes conn }
{
    let worker = conn.worker.to_be_bytes();
    let nth = conn.nth.to_be_bytes();
    [tag, worker[0], worker[1], nth[0], nth[1], nth[2], nth[3]]
}

pub(crate) fn with_conn_and_len(tag: u8, conn: Conn, len: u32) -> [u8; 11]
    ensures { result ≡ tag ∷ (conn_bytes conn ++ four_bytes len) }
{
    let front = with_conn(tag, conn);
    let len = len.to_be_bytes();
    [
        front[0], front[1], front[2], front[3], front[4], front[5], front[6], len[0], len[1],
        len[2], len[3],
    ]
}

pub(crate) fn with_time(tag: u8, now: u64) -> [u8; 9]
    ensures { result ≡ tag ∷ eight_bytes now }
{
    let now = now.to_be_bytes();
    [
        tag, now[0], now[1], now[2], now[3], now[4], now[5], now[6], now[7],
    ]
}

pub(crate) fn four_at(bytes: &[u8], at: usize) -> u32
    requires { at + 4 ≤ length bytes.now }
    ensures { result ≡ four_in bytes.now at }
{
    u32::from_be_bytes([bytes[at], bytes[at + 1], bytes[at + 2], bytes[at + 3]])
}

pub(crate) fn eight_at_front(bytes: &[u8]) -> u64
    requires { 8 ≤ length bytes.now }
    ensures { result ≡ eight_in bytes.now 0 }
{
    u64::from_be_bytes([
        bytes[0], bytes[1], bytes[2], bytes[3], bytes[4], bytes[5], bytes[6], bytes[7],
    ])
}

pub(crate) fn conn_at_front(bytes: &[u8]) -> Conn
    requires { 6 ≤ length bytes.now }
    ensures { result ≡ conn_in bytes.now }
{
    Conn {
        worker: number_at(bytes, 0),
        nth: four_at(bytes, 2),
    }
}
