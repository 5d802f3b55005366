// What cannot be written, and which lines are shown.
ghost use Rattle.std.specs.Prelude.{◌≡◌, true, ◌+◌, ◌≤◌, ◌<◌, length, drop, get_or};
ghost use Rattle.block.specs.EntryBytes.{target_in, entry_in};
ghost use Rattle.block.specs.Decode.{run, decode};
ghost use Rattle.converter.specs.Entries.{kind_width, promote_width, within, target_on_board, can_write};
ghost use Rattle.converter.specs.Said.{said_entry, said_lines};
ghost use Rattle.converter.specs.Show.{hand_obstacle, hands_obstacle, entry_obstacle, line_obstacle, zero_start, start_obstacle};
ghost use Rattle.converter.specs.inner.Lines.{noted_said, ShownLines};

use crate::Mode;
use crate::kif::move_width;
use crate::said::said_entry;
use block::SoundBlock;
use jkf::{Entry, Move, Position, Target, Time};

// A sound block and how many of its lines are shown.
#[derive(Clone, Copy)]
pub(crate) struct ShownBlock<'a> {
    pub(crate) block: SoundBlock<'a>,
    pub(crate) lines: usize,
    pub(crate) ghost counted: { ShownLines block.bytes.now lines },
}

// The first hand count over 99.
fn hand_obstacle(hands: &[u8]) -> Option<(u64, u64)>
    ensures { result ≡ hand_obstacle hands.now 0 14 }
{
    for i in 0..14u64 {
        if 99 < lent::peek(hands, i as usize) {
            return Some((i / 7, i % 7));
        }
    }
    None
}

// What stands in the way of writing both hands, where there is a diagram.
pub fn hands_obstacle(p: Position) -> Option<(u64, u64)>
    ensures { result ≡ hands_obstacle p }
{
    if p.board == 0 {
        return None;
    }
    hand_obstacle(&p.hands)
}

pub(crate) fn within(x: u8) -> bool
    ensures { result ≡ within x }
{
    1 <= x && x <= 9
}

fn target_fits(to: Target) -> bool
    ensures { result ≡ target_on_board to }
{
    match to {
        Target::Same => true,
        Target::Square(x, y) => within(x) && within(y),
    }
}

fn move_fits(m: Move) -> bool
    ensures { result ≡ can_write (Entry.Moved m) }
{
    if !target_fits(m.to) {
        return false;
    }
    match m.time {
        Time::Untimed => true,
        Time::Timed(_, _) => move_width(m) <= 13,
    }
}

// 同, or a square of the board.
fn on_board(row: &[u8]) -> bool
    requires { 9 ≤ length row.now }
    ensures { result ≡ target_on_board (target_in row.now) }
{
    row[8] / 2 % 2 == 1 || within(row[4]) && within(row[5])
}

// On the board, and a name of one character, or one of two that is not promoted again: any mode can write it, with any time.
fn is_narrow(row: &[u8]) -> bool
    ensures { result ≡ true → (target_on_board (target_in row.now) ≡ true) × (kind_width (get_or row.now 2 0) + promote_width (get_or row.now 3 0) ≤ 4) }
{
    9 <= row.len() && on_board(row) && (row[2] < 10 || row[3] != 2)
}

// Whether a row's entry can be written.
fn row_fits(row: &[u8], mode: Mode) -> bool
    ensures { result ≡ can_write (said_entry mode (entry_in row.now)) }
{
    if is_narrow(row) {
        return true;
    }
    match said_entry(mode, block::entry_in(row)) {
        Entry::Slot => true,
        Entry::Moved(m) => move_fits(m),
        Entry::End(_, _) => true,
    }
}

// The first of a line's entries that cannot be written.
fn entry_obstacle(
    b: &[u8],
    mode: Mode,
    line: usize,
    first: usize,
    count: usize,
) -> Option<(u64, u64)>
    requires { first + count < 65536 }
    ensures { result ≡ entry_obstacle line 0 (run (noted_said mode b.now) first count) }
{
    let rows = block::row_of(b, 0);
    for i in 0..count {
        if !row_fits(lent::rest(rows, 20 * (first + i)), mode) {
            return Some((line as u64, i as u64));
        }
    }
    None
}

// The first in the lines that are shown.
pub(crate) fn lines_obstacle(s: ShownBlock, mode: Mode) -> Option<(u64, u64)>
    ensures { result ≡ line_obstacle 0 (said_lines mode (decode s.entry.block.bytes.now).lines) }
{
    let b = s.block.bytes;
    for k in 0..s.lines {
        let i = k as u16;
        let found = entry_obstacle(
            b,
            mode,
            k,
            block::first_entry(b, i),
            block::entry_count(b, i),
        );
        if let Some((line, entry)) = found {
            return Some((line, entry));
        }
    }
    None
}

// A block with the count of its lines that are shown: those before the first variation that starts at 0.
pub(crate) fn shown_lines(b: SoundBlock) -> ShownBlock
    ensures { result.block.bytes.now ≡ b.entry.bytes.now }
{
    let count = block::lines_in(b.bytes);
    for k in 1..count {
        if block::start_of(b.bytes, k as u16) == 0 {
            return ShownBlock { block: b, lines: k };
        }
    }
    ShownBlock {
        block: b,
        lines: count,
    }
}

// The first line that is not shown.
fn lost_line(s: ShownBlock) -> Option<(u64, u64)>
    ensures { result ≡ zero_start 1 (drop 1 (decode s.entry.block.bytes.now).lines) }
{
    if s.lines < block::lines_in(s.block.bytes) {
        return Some((s.lines as u64, 0));
    }
    None
}

// The first variation that starts at 0, where none may be lost.
pub(crate) fn start_obstacle(s: ShownBlock, mode: Mode) -> Option<(u64, u64)>
    ensures { result ≡ start_obstacle mode (decode s.entry.block.bytes.now).lines }
{
    match mode {
        Mode::Plain => None,
        Mode::Whole | Mode::Shared => lost_line(s),
    }
}
