// The tests of a sound block's entries: each byte of the 20 is looked at where it stands.
ghost use Rattle.std.specs.Prelude.{◌≡◌, true, ◌≤◌, length, take, drop, eqb};
ghost use Rattle.lists.specs.Pick.{pick};
ghost use Rattle.lists.specs.Test.{each, flag};
ghost use Rattle.block.specs.inner.Tests.{time_test, move_test, end_test, head_test_of, comments_test, row_test};
ghost use Rattle.block.specs.EntryBytes.{target_bytes, origin_bytes, target_in, origin_in};
ghost use Rattle.block.specs.Decode.{moves_in};
ghost use Rattle.text.specs.Text.{same};
ghost use Rattle.block.specs.Sound.{entry_test};

use crate::{fields, places};

// An hour without its mark is zero.
fn hour_fits(marked: bool, hour: u8) -> bool
    ensures { result ≡ pick marked true (eqb hour 0) }
{
    marked || hour == 0
}

// The time's marks are those of a time, and what it does not use is zero.
fn time_fits(row: &[u8]) -> bool
    requires { 20 ≤ length row.now }
    ensures { result ≡ flag (time_test row.now) }
{
    let marks = row[8];
    if marks / 4 % 2 != 1 {
        return marks < 4 && places::all_zero(&row[9..15]);
    }
    marks < 32 && hour_fits(marks / 8 % 2 == 1, row[9]) && hour_fits(marks / 16 % 2 == 1, row[12])
}

// 同 has no square.
fn target_fits(row: &[u8]) -> bool
    requires { 20 ≤ length row.now }
    ensures { result ≡ same (take 2 (drop 4 row.now)) (target_bytes (target_in row.now)) }
{
    row[8] / 2 % 2 != 1 || (row[4] == 0 && row[5] == 0)
}

// An origin that is not known has no square.
fn origin_fits(row: &[u8]) -> bool
    requires { 20 ≤ length row.now }
    ensures { result ≡ same (take 2 (drop 6 row.now)) (origin_bytes (origin_in row.now)) }
{
    row[8] % 2 == 1 || (row[6] == 0 && row[7] == 0)
}

// A move's colour, kind and promotion are in range, and squares that are not used are zero.
fn move_fits(row: &[u8]) -> bool
    requires { 20 ≤ length row.now }
    ensures { result ≡ flag (move_test row.now) }
{
    row[1] <= 1 && (1..=14).contains(&row[2]) && row[3] <= 2 && target_fits(row) && origin_fits(row)
}

// An ending has one of the numbers 0 to 13, no marks but the time's, and no other field.
fn end_fits(row: &[u8]) -> bool
    requires { 20 ≤ length row.now }
    ensures { result ≡ flag (end_test row.now) }
{
    row[1] <= 13 && row[8] % 4 == 0 && places::all_zero(&row[2..8])
}

// The 15 bytes before the numbers: the slot is the first entry and no other.
fn kind_fits(row: &[u8], k: usize) -> bool
    requires { 20 ≤ length row.now }
    ensures { result ≡ flag (head_test_of k row.now) }
{
    let sort = row[0];
    if sort == 0 {
        return k == 0 && places::all_zero(&row[..15]);
    }
    if k == 0 || !time_fits(row) {
        return false;
    }
    match sort {
        1 => move_fits(row),
        2 => end_fits(row),
        _ => false,
    }
}

// The bytes after the time: a zero, and the first comment, which is 0 where there is none.
fn comments_fit(row: &[u8], next: usize) -> bool
    requires { 20 ≤ length row.now }
    ensures { result ≡ flag (comments_test next row.now) }
{
    let count = fields::pair(row, 18);
    let first = if count == 0 { 0 } else { next % 65536 };
    row[15] == 0 && fields::pair(row, 16) == first
}

// Entry k by its row; its comments begin with this one.
fn row_sound(row: &[u8], k: usize, next: usize) -> bool
    ensures { result ≡ flag (row_test k next row.now) }
{
    20 <= row.len() && kind_fits(row, k) && comments_fit(row, next)
}

// The entries.
pub(crate) fn entries_sound(b: &[u8]) -> bool
    ensures { result ≡ flag (each (moves_in b.now) (entry_test b.now)) }
{
    let n = fields::moves(b);
    let rows = lent::rest(b, fields::move_place(b, 0));
    let mut at = 0;
    for k in 0..n {
        let row = lent::rest(rows, 20 * k);
        if !row_sound(row, k, at) {
            return false;
        }
        at += lent::get16(row, 18);
    }
    true
}
