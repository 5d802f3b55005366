// The lines of play passed one after another, up to the first that hangs nowhere or to where reading stops.
ghost use Rattle.std.specs.Prelude.{◌≡◌, ◌≤◌, ◌<◌, length};
ghost use Rattle.jkf.specs.Following.{Linked};
ghost use Rattle.stops.specs.Stopping.{played_stop};
ghost use Rattle.plays.specs.Plays.{entries_at, slot_at, past_main};
ghost use Rattle.stops.specs.inner.Tables.{main_row, row_put, astray_in};

use crate::tries::stopped;
use crate::{Astray, Gone, StopAnswer};
use text::Cursor;

// What is told of a variation that hangs nowhere, by the rows of the lines before it.
fn astray_of(rows: &[u8], k: usize, ply: u64, at: Cursor) -> Astray
    requires { Linked rows.now k × (0 < k) × (k ≤ 8192) }
    ensures { result ≡ astray_in rows.now k ply at.at }
{
    let parent = jkf::nearest(rows, k, ply);
    let first = lent::get16(rows, 8 * parent) as u64;
    let count = lent::get16(rows, 8 * parent + 4) as u64;
    Astray {
        variation: k as u64,
        ply,
        parent: parent as u64,
        first,
        last: first + count.saturating_sub(1),
        at: at.at as u64,
    }
}

// The main line, whose row is the first of the table.
fn main_line(begin: Cursor, s: &[u8], rows: &mut [u8]) -> Gone
    requires { (length s.now ≤ 65535) × (begin.at ≤ length s.now) }
    ensures at_value { result.next.at ≡ past_main s.now (slot_at s.now begin.at).at }
    ensures at_value_too { result.end.at ≡ (entries_at s.now (slot_at s.now begin.at).at).at }
    ensures rows_after { rows.new ≡ row_put 0 (main_row s.now begin.at) rows.old }
{
    let slot = plays::count_comments(plays::skipped(begin, s), s).next;
    let line = plays::count_moves(slot, s);
    block::put_line_row(rows, 0, 0, 0, 1 + line.entries, 0);
    let end = line.next;
    Gone {
        next: plays::past(slot, line.entries, end, s),
        end,
    }
}

// All lines of play, from the place past the information blocks and the board; their rows stand in a table.
pub(crate) fn walk(begin: Cursor, s: &[u8], rows: &mut [u8]) -> StopAnswer
    requires { (length s.now ≤ 65535) × (begin.at ≤ length s.now) × (length rows.old ≡ 65536) }
    ensures { result ≡ played_stop s.now begin.at }
{
    let mut gone = main_line(begin, s, rows);
    let mut k = 1;
    loop {
        let at = plays::skips(gone.next, s);
        let line = plays::count_moves(at, s);
        if line.entries == 0 {
            return stopped(begin, gone.end, gone.next, s);
        }
        let start = plays::ply(at, s);
        let Some((parent, _)) = jkf::hang_of(rows, k, start) else {
            return StopAnswer::NoEntry(astray_of(rows, k, start, at));
        };
        block::put_line_row(rows, 8 * k, start, 0, line.entries, parent);
        let end = line.next;
        gone = Gone {
            next: plays::skipped(end, s),
            end,
        };
        k += 1;
    }
}
