// What is wrong, as lines of a text.
use std::alloc::AllocError;

/// Notes what isn't as it should be.
pub(crate) fn note_unless(wrong: &mut String, what: &str, right: bool) -> Result<(), AllocError> {
    if right {
        return Ok(());
    }
    wrong.push_str(what)?;
    wrong.push('\n')
}
