//! Bytes as a text, and why they are none.

ghost use Rattle.std.specs.Prelude.{◌≡◌, ◌≤◌, ◌<◌, ◌+◌, ◌^◌, true, Some, None, length, IfOk, OnOk, IfErr};
ghost use Rattle.std.specs.Str.{chars, is_utf8, IsUtf8, IsValidUpTo};
ghost use Rattle.file_text.specs.NoText.{begins_text, line_behind, col_behind, no_text};

use std::str;

/// Why bytes are no text within a limit.
#[derive(Clone, Copy, PartialEq, Eq)]
pub enum NoText {
    /// They are more than the limit.
    Long,
    /// The first byte that begins no whole character of UTF-8: its line and its column, from 1, in characters.
    Utf8 { line: u32, col: u32 },
}

impl NoText {
    // Bytes that are not UTF-8 behind this text.
    fn utf8(front: &str) -> NoText
        requires { length front.now + 2 < 2 ^ 32 }
        ensures { result ≡ NoText.Utf8 (line_behind 1 (chars front.now)) (col_behind 1 (chars front.now)) }
    {
        let mut line = 1;
        let mut col = 1;
        for c in front.chars() {
            if c == '\n' {
                line += 1;
                col = 1;
            } else {
                col += 1;
            }
        }
        NoText::Utf8 { line, col }
    }

    // Bytes that are no text, of which the first `valid` are one and no more; `cut` tells whether they end within a character.
    fn no_text(bytes: &[u8], limit: usize, valid: usize, cut: bool) -> NoText
        requires limit { limit + 3 < 2 ^ 32 }
        requires most { length bytes.now ≤ limit + 1 }
        requires none { ¬ (IsUtf8 bytes.now) }
        requires valid { IsValidUpTo bytes.now valid }
        requires cut { cut ≡ begins_text bytes.now }
        ensures { no_text limit bytes.now ≡ Some result }
    {
        if cut && bytes.len() > limit {
            return NoText::Long;
        }
        match str::from_utf8(&bytes[..valid]) {
            Ok(front) => NoText::utf8(front),
            Err(_) => NoText::Long,
        }
    }
}

/// The text of bytes, of which there is at most one more than the limit. Bytes that begin no UTF-8 text are told before there are too
/// many; a character that the last of these bytes cuts is no fault of its own.
pub fn text_of(bytes: &[u8], limit: usize) -> Result<&str, NoText>
    requires limit { limit + 3 < 2 ^ 32 }
    requires most { length bytes.now ≤ limit + 1 }
    ensures same { IfOk result (λ text. text.now ≡ bytes.now) }
    ensures short { OnOk result (length bytes.now ≤ limit) }
    ensures utf8 { OnOk result (is_utf8 bytes.now ≡ true) }
    ensures fine { OnOk result (no_text limit bytes.now ≡ None) }
    ensures fault { IfErr result (λ why. no_text limit bytes.now ≡ Some why) }
{
    match str::from_utf8(bytes) {
        Ok(text) => {
            if bytes.len() > limit {
                return Err(NoText::Long);
            }
            Ok(text)
        }
        Err(error) => Err(NoText::no_text(
            bytes,
            limit,
            error.valid_up_to(),
            error.error_len().is_none(),
        )),
    }
}
