// How long a text will be.
ghost use Rattle.std.specs.Prelude.{◌≡◌, ℕ, ◌+◌, ◌*◌, ◌-◌, ◌≤◌, ◌<◌, length, drop};
ghost use Rattle.lent.specs.Numbers.{padded};
ghost use Rattle.spell.specs.Tables.{move_kinds, numerals, files};
ghost use Rattle.spell.specs.Spell.{spelled};
ghost use Rattle.block.specs.EntryBytes.{entry_in};
ghost use Rattle.jkf.specs.Entries.{special_of};
ghost use Rattle.block.specs.Encode.{concat};
ghost use Rattle.block.specs.Decode.{run, moves_in, lines_in, move_place, entry_count, comment_of, decode};
ghost use Rattle.converter.specs.Headers.{headers_text};
ghost use Rattle.converter.specs.inner.Places.{stored_headers};
ghost use Rattle.converter.specs.Diagrams.{position_text};
ghost use Rattle.converter.specs.Entries.{target_text, promote_text, origin_text, move_text, special_text, clock_text, time_text, play_text, entry_line, remark_text, remarks_text, noted_text, entries_text};
ghost use Rattle.converter.specs.Said.{said_entry, said_record};
ghost use Rattle.converter.specs.Show.{main_text, variation_text, record_text};
ghost use Rattle.converter.specs.inner.Lines.{noted_said, line_said};

use crate::Mode;
use crate::checks::{ShownBlock, within};
use crate::kif::width_of;
use crate::said::said_entry;
use crate::starts::put_position;
use crate::usuals::{UsualEntry, usual_length};
use block::SoundBlock;
use jkf::{Clock, Entry, Move, Position, Target, Time};

// A number to a width.
fn padded_length(v: u64, width: usize) -> usize
    requires { (v < 131072) × (width ≤ 4) }
    ensures { ((fill : ℕ) → result ≡ length (padded width fill v)) × (result ≤ 6) }
{
    lent::decimal_len(v).max(width)
}

// A file or a rank.
fn place_length(x: u8) -> usize
    ensures { (result ≡ length (spelled files x)) × (result ≡ length (spelled numerals x)) × (result ≤ 3) }
{
    if within(x) { 3 } else { 0 }
}

fn target_length(to: Target) -> usize
    ensures { (result ≡ length (target_text to)) × (result ≤ 6) }
{
    match to {
        Target::Same => 6,
        Target::Square(x, y) => place_length(x) + place_length(y),
    }
}

fn kind_length(kind: u8) -> usize
    ensures { (result ≡ length (spelled move_kinds kind)) × (result ≤ 6) }
{
    match kind {
        1..=9 | 13..=14 => 3,
        10..=12 => 6,
        _ => 0,
    }
}

fn promote_length(promote: u8) -> usize
    ensures { (result ≡ length (promote_text promote)) × (result ≤ 6) }
{
    match promote {
        1 => 6,
        2 => 3,
        _ => 0,
    }
}

fn origin_length(from: Option<(u8, u8)>) -> usize
    ensures { (result ≡ length (origin_text from)) × (result ≤ 8) }
{
    match from {
        None => 3,
        Some((x, y)) => 2 + lent::decimal_len(x as u64) + lent::decimal_len(y as u64),
    }
}

fn move_length(m: Move) -> usize
    ensures { (result ≡ length (move_text m)) × (result ≤ 26) }
{
    target_length(m.to) + kind_length(m.piece) + promote_length(m.promote) + origin_length(m.from)
}

// A special by its number.
fn special_length(n: u8) -> usize
    ensures { (result ≡ length (special_text (special_of n))) × (result ≤ 12) }
{
    match n {
        2 => 9,
        3 => 12,
        4 => 12,
        7 => 9,
        8 => 12,
        _ => 6,
    }
}

fn play_length(e: Entry) -> usize
    ensures { (result ≡ length (play_text e)) × (result ≤ 26) }
{
    match e {
        Entry::Slot => 0,
        Entry::Moved(m) => move_length(m),
        Entry::End(s, _) => special_length(u8::from(s)),
    }
}

// A number to two places.
fn figure_length(v: u8) -> usize
    ensures { ((fill : ℕ) → result ≡ length (padded 2 fill v)) × (result ≤ 3) }
{
    if v < 100 { 2 } else { 3 }
}

// A clock and the byte after it.
fn clock_length(c: Clock) -> usize
    ensures { ((fill after : ℕ) → result ≡ length (clock_text fill after c)) × (result ≤ 12) }
{
    match c {
        Clock::Hms(h, m, s) => 3 + figure_length(h) + figure_length(m) + figure_length(s),
        Clock::Ms(m, s) => 2 + figure_length(m) + figure_length(s),
    }
}

fn time_length(width: usize, time: Time) -> usize
    requires { width ≤ 14 }
    ensures { (result ≡ length (time_text width time)) × (result ≤ 38) }
{
    match time {
        Time::Untimed => 0,
        Time::Timed(now, total) => {
            13usize.saturating_sub(width) + 1 + clock_length(now) + clock_length(total)
        }
    }
}

pub(crate) fn entry_length(ply: usize, e: Entry) -> usize
    requires { ply < 131072 }
    ensures { (result ≡ length (entry_line ply e)) × (result ≤ 72) }
{
    2 + padded_length(ply as u64, 4) + play_length(e) + time_length(width_of(e), jkf::time_of(e))
}

// The line of a row's entry.
fn row_length(ply: usize, row: &[u8], mode: Mode) -> usize
    requires { ply < 131072 }
    ensures { (result ≡ length (entry_line ply (said_entry mode (entry_in row.now)))) × (result ≤ 72) }
{
    if ply < 1000
        && let Some(e) = UsualEntry::of(row, mode)
    {
        return usual_length(e);
    }
    entry_length(ply, said_entry(mode, block::entry_in(row)))
}

fn remark_length(c: &[u8]) -> usize
    ensures { result ≡ length (remark_text c.now) }
{
    if lent::peek(c, 0) == b'&' {
        return c.len() + 1;
    }
    c.len() + 2
}

// So many comments of a block from one on.
fn remarks_length(b: &[u8], first: usize, count: usize) -> usize
    requires { first + count < 65536 }
    ensures { (result ≡ length (remarks_text (run (comment_of b.now) first count))) × (result ≤ 65537 * count) }
{
    let mut n = 0;
    for i in 0..count {
        n += remark_length(block::comment_of(b, (first + i) as u16));
    }
    n
}

// Entry k with its comments; the rows of the entries are given.
fn noted_length(b: SoundBlock, rows: &[u8], mode: Mode, ply: usize, k: usize) -> usize
    requires { (k < moves_in b.bytes.now) × (ply < 131072) × (rows.now ≡ drop (move_place b.bytes.now 0) b.bytes.now) }
    ensures { (result ≡ length (noted_text ply (noted_said mode b.entry.bytes.now k))) × (result ≤ 4295032904) }
{
    let row = lent::rest(rows, 20 * k);
    let n = row_length(ply, row, mode);
    let count = lent::get16(row, 18);
    if count == 0 {
        return n;
    }
    n + remarks_length(b.bytes, lent::get16(row, 16), count)
}

// So many entries from one on, numbered from a ply on.
fn entries_length(b: SoundBlock, mode: Mode, ply: usize, first: usize, count: usize) -> usize
    requires { (first + count ≤ moves_in b.bytes.now) × (ply < 65536) }
    ensures { (result ≡ length (entries_text ply (run (noted_said mode b.entry.bytes.now) first count))) × (result ≤ 4295032904 * count) }
{
    let rows = block::row_of(b.bytes, 0);
    let mut n = 0;
    for i in 0..count {
        n += noted_length(b, rows, mode, ply + i, first + i);
    }
    n
}

// Line k, which is a variation.
fn variation_length(b: SoundBlock, mode: Mode, k: usize) -> usize
    requires { k < lines_in b.bytes.now }
    ensures { (result ≡ length (variation_text (line_said mode b.entry.bytes.now k))) × (result ≤ 19 + 4295032904 * entry_count b.entry.bytes.now k) }
{
    let i = k as u16;
    let start = block::start_of(b.bytes, i);
    14 + lent::decimal_len(start as u64)
        + entries_length(
            b,
            mode,
            start,
            block::first_entry(b.bytes, i),
            block::entry_count(b.bytes, i),
        )
}

// The variations that are shown.
fn variations_length(s: ShownBlock, mode: Mode) -> usize
    ensures { (result ≡ length (concat variation_text (run (line_said mode s.entry.block.bytes.now) 1 (s.entry.lines - 1)))) × (result ≤ 300000000000000) }
{
    let mut n = 0;
    for k in 1..s.lines {
        n += variation_length(s.block, mode, k);
    }
    n
}

// Line 0.
fn main_length(b: SoundBlock, mode: Mode) -> usize
    ensures { (result ≡ length (main_text (line_said mode b.entry.bytes.now 0))) × (result ≤ 300000000000000) }
{
    remarks_length(
        b.bytes,
        block::first_comment(b.bytes, 0),
        block::comment_count(b.bytes, 0),
    ) + entries_length(b, mode, 1, 1, block::entry_count(b.bytes, 0) - 1)
}

// The position, written to be counted.
pub(crate) fn position_length(p: Position) -> usize
    ensures { (result ≡ length (position_text p)) × (result ≤ 2048) }
{
    let mut scratch = [0u8; 2048];
    put_position(&mut scratch, p)
}

// The header: each entry has a ： and an LF.
fn headers_length(b: SoundBlock) -> usize
    ensures { (result ≡ length (headers_text (stored_headers b.entry.bytes.now))) × (result ≤ 10000000000) }
{
    block::header_bytes(b.bytes) + 4 * block::headers_in(b.bytes)
}

// The whole text.
pub(crate) fn text_length(s: ShownBlock, mode: Mode) -> usize
    ensures { result ≡ length (record_text (said_record mode (decode s.entry.block.bytes.now))) }
{
    let b = s.block;
    let head = headers_length(b) + position_length(block::position_of(b.bytes));
    head + 40 + main_length(b, mode) + variations_length(s, mode)
}
