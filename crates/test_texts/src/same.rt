//! A comparison that tells what differs.
use std::fmt::Debug;
use std::test::Fail;

/// Fails unless two values are equal.
pub fn same<T: PartialEq + Debug>(seen: &T, wanted: &T, what: &str) -> Result<(), Fail> {
    if seen == wanted {
        return Ok(());
    }
    Err(Fail::new(format_args!("{what}: {seen:?}, not {wanted:?}")))
}
