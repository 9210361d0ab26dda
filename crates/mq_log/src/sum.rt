//! The checksum of an entry.

ghost use Rattle.std.specs.Prelude.{◌≡◌, ◌+◌, ◌*◌, ◌%◌, ◌<◌};
ghost use Rattle.mq_log.specs.Prelude.{checksum};

// The factor of the polynomial, and its powers modulo 2^32.
const FACTOR: u64 = 16_777_619;

const SECOND_POWER: u64 = 637_696_617;

const FOURTH_POWER: u64 = 1_345_077_009;

const EIGHTH_POWER: u64 = 1_566_662_433;

const MODULUS: u64 = 4_294_967_296;

// The share of two bytes.
fn of_two(first: u8, second: u8) -> u64
    ensures value { result ≡ first * 16777619 + second }
    ensures low { result < 4294967296 }
{
    u64::from(first) * FACTOR + u64::from(second)
}

// The share of four bytes, from those of two and two.
fn of_four(first: u64, second: u64) -> u64
    requires first { first < 4294967296 }
    requires second { second < 4294967296 }
    ensures value { result ≡ (first * 637696617 + second) % 4294967296 }
    ensures low { result < 4294967296 }
{
    (first * SECOND_POWER + second) % MODULUS
}

// The share of eight bytes, from those of four and four.
fn of_eight(first: u64, second: u64) -> u64
    requires first { first < 4294967296 }
    requires second { second < 4294967296 }
    ensures value { result ≡ (first * 1345077009 + second) % 4294967296 }
    ensures low { result < 4294967296 }
{
    (first * FOURTH_POWER + second) % MODULUS
}

/// The checksum of an entry: a polynomial in its bytes, modulo 2^32, that starts from its length.
/// Takes eight bytes at a time, whose shares do not wait for one another.
pub fn checksum(entry: &[u8]) -> u32
    ensures { result ≡ checksum entry.now }
{
    let mut sum = (2_166_136_261 + entry.len() as u64 % MODULUS) % MODULUS;
    let mut rest = entry;
    while let [a, b, c, d, e, f, g, h, more @ ..] = rest {
        let front = of_four(of_two(*a, *b), of_two(*c, *d));
        let back = of_four(of_two(*e, *f), of_two(*g, *h));
        sum = (sum * EIGHTH_POWER + of_eight(front, back)) % MODULUS;
        rest = more;
    }
    for &byte in rest {
        sum = (sum * FACTOR + u64::from(byte)) % MODULUS;
    }
    sum as u32
}
