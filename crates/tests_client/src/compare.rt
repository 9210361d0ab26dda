//! Comparing texts with the wanted ones. Nothing else is alive here, and nothing in the loops over
//! rows.

use std::process::Abort;
use std::test::Fail;

// Compares a text. `of` names the row.
fn expect_text(rt: &impl Abort, told: &str, wanted: &str, of: &str) {
    assert_eq!(rt; told, wanted, "{of}");
}

/// Compares the text that a call returned.
pub(crate) fn expect_told(
    rt: &impl Abort,
    told: Result<String, Fail>,
    wanted: &str,
    of: &str,
) -> Result<(), Fail> {
    let told = told?;
    expect_text(rt, told.as_str(), wanted, of);
    Ok(())
}
