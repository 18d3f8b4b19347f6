//! The text of one row. It is put together from its last field to its first, since digits are found from the last to
//! the first; so each byte is written once, where it stays. A function that puts something before a place returns the
//! place where it begins.

ghost use Rattle.std.specs.Prelude.{◌≡◌, ◌≤◌, ◌<◌, ◌+◌, ◌++◌, [], ◌∷◌, length, drop, decimal};
ghost use Rattle.reports.specs.Rows.{comma, optional, with_rank};

use itoa::{Buffer, write_digits};

/// The room for a row, in bytes. A row of the tables here takes fewer: ten fields of 20 digits and their commas.
pub(crate) const ROOM: usize = 256;

/// The room for a row, which ends where the room does.
pub(crate) type Line = [u8; ROOM];

/// The text from a place on.
#[inline(always)]
pub(crate) fn text_from(line: &Line, start: usize) -> &[u8]
    requires { start ≤ 256 }
    ensures text { result.now ≡ drop start line.now }
    ensures length { length result.now + start ≡ 256 }
{
    &line[start..]
}

/// Puts bytes before a place.
#[inline(always)]
pub(crate) fn put_bytes(line: &mut Line, end: usize, bytes: &[u8]) -> usize
    requires { (length bytes.now ≤ end) × (end ≤ 256) }
    ensures text { drop result line.new ≡ bytes.now ++ drop end line.old }
    ensures start { result + length bytes.now ≡ end }
{
    let start = end - bytes.len();
    line[start..end].copy_from_slice(bytes);
    start
}

/// Puts a byte before a place.
#[inline(always)]
pub(crate) fn put_byte(line: &mut Line, end: usize, byte: u8) -> usize
    requires { (0 < end) × (end ≤ 256) }
    ensures text { drop result line.new ≡ byte ∷ drop end line.old }
    ensures start { result + 1 ≡ end }
{
    line[end - 1] = byte;
    end - 1
}

// The numbers of a table often have one digit.
#[inline(always)]
fn put_digits(line: &mut Line, end: usize, number: u64) -> usize
    requires { (20 ≤ end) × (end ≤ 256) }
    ensures text { drop result line.new ≡ decimal number ++ drop end line.old }
    ensures low { end ≤ result + 20 }
    ensures high { result ≤ end }
{
    if number < 10 {
        return put_byte(line, end, b'0' + number as u8);
    }
    if number < 100 {
        return write_digits(u64::from(number as u8), line, end);
    }
    write_digits(number, line, end)
}

/// Puts the last field, a number that often has five digits or more.
#[inline(always)]
pub(crate) fn put_last_long(line: &mut Line, number: u64) -> usize
    ensures text { drop result line.new ≡ decimal number }
    ensures low { 236 ≤ result }
    ensures high { result ≤ 256 }
{
    if number >= 10_000 {
        return write_digits(number, line, ROOM);
    }
    put_digits(line, ROOM, number)
}

/// Puts the last field.
#[inline(always)]
pub(crate) fn put_last(line: &mut Line, number: Option<u64>) -> usize
    ensures text { drop result line.new ≡ optional number }
    ensures low { 236 ≤ result }
    ensures high { result ≤ 256 }
{
    match number {
        Some(number) => put_digits(line, ROOM, number),
        None => ROOM,
    }
}

/// Puts the last field: a number that may exceed 64 bits, or nothing where there is none.
#[inline]
pub(crate) fn put_last_wide(line: &mut Line, number: Option<u128>) -> usize
    ensures text { drop result line.new ≡ optional number }
    ensures low { 216 ≤ result }
    ensures high { result ≤ 256 }
{
    let Some(number) = number else {
        return ROOM;
    };
    match u64::try_from(number) {
        Ok(number) => put_digits(line, ROOM, number),
        Err(_) => put_bytes(line, ROOM, Buffer::new().format(number).as_bytes()),
    }
}

// The field of a digit.
fn digit_field(digit: u64) -> [u8; 2]
    requires { digit < 10 }
    ensures { result ≡ decimal digit ++ comma ∷ [] }
{
    match digit {
        0 => *b"0,",
        1 => *b"1,",
        2 => *b"2,",
        3 => *b"3,",
        4 => *b"4,",
        5 => *b"5,",
        6 => *b"6,",
        7 => *b"7,",
        8 => *b"8,",
        _ => *b"9,",
    }
}

/// Puts a field before the others, a number that has one digit in most rows.
#[inline(always)]
pub(crate) fn put_small(line: &mut Line, end: usize, number: u64) -> usize
    requires { (21 ≤ end) × (end ≤ 256) }
    ensures text { drop result line.new ≡ decimal number ++ comma ∷ drop end line.old }
    ensures low { end ≤ result + 21 }
    ensures high { result < end }
{
    if number < 10 {
        return put_bytes(line, end, &digit_field(number));
    }
    put_great(line, end, number)
}

// Puts a field before the others, a number of several digits.
#[inline(never)]
fn put_great(line: &mut Line, end: usize, number: u64) -> usize
    requires { (21 ≤ end) × (end ≤ 256) }
    ensures text { drop result line.new ≡ decimal number ++ comma ∷ drop end line.old }
    ensures low { end ≤ result + 21 }
    ensures high { result < end }
{
    let start = put_byte(line, end, b',');
    put_digits(line, start, number)
}

/// Puts a field before the others: a number, or nothing where there is none.
#[inline(always)]
pub(crate) fn put(line: &mut Line, end: usize, number: Option<u64>) -> usize
    requires { (21 ≤ end) × (end ≤ 256) }
    ensures text { drop result line.new ≡ optional number ++ comma ∷ drop end line.old }
    ensures low { end ≤ result + 21 }
    ensures high { result < end }
{
    let start = put_byte(line, end, b',');
    match number {
        Some(number) => put_digits(line, start, number),
        None => start,
    }
}

/// Puts a field of the column of the rank before the others, where there are several ranks.
#[inline(always)]
pub(crate) fn put_rank(line: &mut Line, end: usize, ranks: u32, rank: Option<u64>) -> usize
    requires { (21 ≤ end) × (end ≤ 256) }
    ensures text { drop result line.new ≡ with_rank ranks rank (drop end line.old) }
    ensures low { end ≤ result + 21 }
    ensures high { result ≤ end }
{
    if ranks > 1 {
        return put(line, end, rank);
    }
    end
}

/// Puts a word before the others.
#[inline(always)]
pub(crate) fn put_word(line: &mut Line, end: usize, word: &[u8]) -> usize
    requires { (length word.now + 1 ≤ end) × (end ≤ 256) }
    ensures text { drop result line.new ≡ word.now ++ comma ∷ drop end line.old }
    ensures start { result + length word.now + 1 ≡ end }
{
    let start = put_byte(line, end, b',');
    put_bytes(line, start, word)
}
