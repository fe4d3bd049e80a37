//! What fails where a row tells something else.

use std::test::Fail;

/// Fails where something of a row isn't so.
pub(crate) fn holds(is_so: bool, row: usize, what: &str) -> Result<(), Fail> {
    if is_so {
        return Ok(());
    }
    Err(Fail::new(format_args!("row {row}: {what}")))
}
