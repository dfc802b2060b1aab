//! Texts as an answer has them.
ghost use Rattle.std.specs.Prelude.{◌≡◌, ◌==◌, ◌||◌, ◌++◌, OnOk};
ghost use Rattle.app_result_text.specs.Answer.{escaped};

use std::alloc::AllocError;

/// Whether a backslash stands before a byte.
fn is_escaped(byte: u8) -> bool
    ensures { result ≡ (byte == 92 || byte == 124) }
{
    byte == b'\\' || byte == b'|'
}

/// Appends a text with a backslash before each bar and each backslash. What lies between two of
/// them is copied at once.
pub(crate) fn push_escaped(text: &mut Vec<u8>, plain: &[u8]) -> Result<(), AllocError>
    ensures { OnOk result (text.new.items ≡ text.old.items ++ escaped plain.now) }
{
    let mut start = 0;
    for i in 0..plain.len() {
        if is_escaped(plain[i]) {
            text.extend_from_slice(&plain[start..i])?;
            text.push(b'\\')?;
            start = i;
        }
    }
    text.extend_from_slice(&plain[start..])
}
