//! Comparison of texts. Holds no other values, so that a loop over rows holds none either.

use std::io;
use std::process::Abort;
use std::test::Fail;

pub(crate) fn expect_text(rt: &impl Abort, told: &str, wanted: &str, of: &str) {
    assert_eq!(rt; told, wanted, "{of}");
}

pub(crate) fn expect_told(
    rt: &impl Abort,
    told: Result<String, Fail>,
    wanted: &str,
    of: &str,
) -> Result<(), Fail> {
    let told = told?;
    expect_text(rt, told.as_str(), wanted, of);
    Ok(())
}

// The status and the bytes are these.
fn expect_output(rt: &impl Abort, told: (u8, &[u8]), wanted: (u8, &[u8]), of: &str) {
    assert_eq!(rt; told.1, wanted.1, "{of}");
    assert_eq!(rt; told.0, wanted.0, "{of}");
}

pub(crate) fn expect_printed(
    rt: &impl Abort,
    printed: io::Result<(u8, Vec<u8>)>,
    status: u8,
    wanted: &[u8],
    of: &str,
) -> Result<(), Fail> {
    let (told, output) = printed?;
    expect_output(rt, (told, output.as_slice()), (status, wanted), of);
    Ok(())
}
