//! Lines of a text, and places in it.

/// The line of a text that has this number, counted from 1.
pub(crate) fn line_at(text: &[u8], number: u64) -> Option<&[u8]> {
    let index = usize::try_from(number.checked_sub(1)?).ok()?;
    text.split(|byte| *byte == b'\n').nth(index)
}

/// A place in a text: its line, and the character on that line, both counted from 1.
#[derive(Clone, Copy)]
pub(crate) struct Position {
    pub(crate) line: u64,
    pub(crate) column: u64,
}

impl Position {
    /// The place right after these bytes.
    pub(crate) fn behind(bytes: &[u8]) -> Position {
        let mut line = 1u64;
        let mut column = 1u64;
        for byte in bytes {
            if *byte == b'\n' {
                line = line.saturating_add(1);
                column = 1;
            } else if *byte & 0xC0 != 0x80 {
                // (a character begins here)
                column = column.saturating_add(1);
            }
        }
        Position { line, column }
    }
}
