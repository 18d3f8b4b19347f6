//! Rows that are handed to `csv` as one text.

ghost use Rattle.std.specs.Prelude.{◌≡◌, ◌≤◌, ◌<◌, ◌+◌, ◌++◌, ◌↔◌, [], length, take, codes, IsTrue};
ghost use Rattle.std.specs.Simd.Lanes.{chunk};
ghost use Rattle.reports.specs.Rows.{ended};

use crate::line::ROOM;
use std::marker::Model;
use std::simd::prelude::*;

/// The room for the text, in bytes.
const SIZE: usize = 4096;

/// Rows, each ended by a line feed. `csv` gets them as one text without the last line feed, which it writes itself. So
/// what `csv` does for a text is done once for many rows.
#[derive(Drop)]
pub(crate) struct Block {
    bytes: [u8; SIZE],
    len: usize,
}

impl Model for Block {
    ghost use Rattle.std.specs.Prelude.{ℕ, List, ◌≡◌, ◌≤◌, ◌-◌, take};
    ghost use Rattle.reports.specs.Rows.{ended};

    ghost Value = { List ℕ };

    ghost view = { λ block. take block.len block.bytes };

    ghost invariant = { λ block. (block.len ≤ 4096)
        × (ended (take (block.len - 1) block.bytes) ≡ take block.len block.bytes) };
}

// Ends a row that stands at the end of the first `len` bytes.
#[inline(always)]
fn end_row(bytes: &mut [u8; SIZE], len: usize)
    requires some { 0 < len }
    requires room { len < 4096 }
    ensures text { take (len + 1) bytes.new ≡ take len bytes.old ++ codes "\n" }
    ensures ended { ended (take len bytes.new) ≡ take (len + 1) bytes.new }
{
    bytes[len] = b'\n';
}

// Copies 16 bytes of a row, from a place in it on, to where the row stands from `start` on.
#[inline(always)]
fn copy_piece(bytes: &mut [u8; SIZE], start: usize, row: &[u8], at: usize)
    requires piece { at + 16 ≤ length row.now }
    requires room { start + length row.now ≤ 4096 }
    ensures { take (start + at + 16) bytes.new
        ≡ take (start + at) bytes.old ++ chunk at 16 row.now }
{
    let piece: u8x16 = Simd::from_slice(&row[at..]);
    piece.copy_to_slice(&mut bytes[start + at..]);
}

// Copies a row of any length.
#[inline(never)]
fn copy_row(bytes: &mut [u8; SIZE], start: usize, row: &[u8])
    requires room { start + length row.now ≤ 4096 }
    ensures { take (start + length row.now) bytes.new ≡ take start bytes.old ++ row.now }
{
    bytes[start..start + row.len()].copy_from_slice(row);
}

// Puts a row at a place. Most have 16 to 48 bytes; the last 16 of these may overlap those before.
#[inline(always)]
fn put_row(bytes: &mut [u8; SIZE], start: usize, row: &[u8])
    requires room { start + length row.now ≤ 4096 }
    ensures { take (start + length row.now) bytes.new ≡ take start bytes.old ++ row.now }
{
    let len = row.len();
    if len < 16 || len > 48 {
        return copy_row(bytes, start, row);
    }
    copy_piece(bytes, start, row, 0);
    if len > 32 {
        copy_piece(bytes, start, row, 16);
    }
    copy_piece(bytes, start, row, len - 16);
}

impl Block {
    /// No row.
    pub(crate) fn new() -> Block
        ensures { result ≡ [] }
    {
        Block {
            bytes: [0; SIZE],
            len: 0,
        }
    }

    /// Whether there is no row.
    #[inline]
    pub(crate) fn is_empty(&self) -> bool
        ensures { IsTrue result ↔ (self.now ≡ []) }
    {
        self.len == 0
    }

    /// Whether there is room for one more row, whatever it is.
    #[inline]
    pub(crate) fn has_room(&self) -> bool
        ensures { IsTrue result → length self.now + 256 < 4096 }
    {
        self.len < SIZE - ROOM
    }

    /// The rows, without the line feed at their end.
    #[inline]
    pub(crate) fn text(&self) -> &[u8]
        ensures { ended result.now ≡ self.now }
    {
        &self.bytes[..self.len.saturating_sub(1)]
    }

    /// Drops all rows.
    #[inline]
    pub(crate) fn clear(&mut self)
        ensures { self.new ≡ [] }
    {
        self.len = 0;
    }

    /// Appends a row.
    #[inline(always)]
    pub(crate) fn push(&mut self, row: &[u8])
        requires some { 0 < length row.now }
        requires room { length self.old + length row.now < 4096 }
        ensures { self.new ≡ self.old ++ (row.now ++ codes "\n") }
    {
        let start = self.len;
        put_row(&mut self.bytes, start, row);
        let end = start + row.len();
        end_row(&mut self.bytes, end);
        self.len = end + 1;
    }
}
