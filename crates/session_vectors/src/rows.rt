//! The rows of tables, as what fails.

use std::test::Fail;

/// Fails where a test of a table's row doesn't hold. An assertion in a test's own loop is dear to prove.
pub(crate) fn holds(row: usize, test: bool) -> Result<(), Fail> {
    if test {
        return Ok(());
    }
    Err(Fail::new(format_args!("not so in row {row}")))
}
