// What writing loses of a block, counted over the lines that are written.   (01, Writing, and what is lost)
ghost use Rattle.std.specs.Prelude.{◌<◌, ◌≤◌};

use crate::notes;
use crate::notes::{Kind, Streams};
use jkf::{Clock, Entry, Time};

// How many marks and hours.
#[derive(Drop)]
struct Lost {
    marks: usize,
    hours: usize,
}

// 1 for a move with the mark 不成.
fn unpromoted(e: Entry) -> usize
    ensures { result ≤ 1 }
{
    match e {
        Entry::Moved(m) => if m.promote == 1 { 1 } else { 0 },
        _ => 0,
    }
}

// 1 for a time whose first clock has an hour.
fn hour_of_now(t: Time) -> usize
    ensures { result ≤ 1 }
{
    match t {
        Time::Untimed => 0,
        Time::Timed(now, _) => match now {
            Clock::Hms(_, _, _) => 1,
            Clock::Ms(_, _) => 0,
        },
    }
}

// Over the first entries of a block.
fn count_lost(b: &[u8], entries: usize) -> Lost
    requires { entries < 65536 }
{
    let mut marks = 0;
    let mut hours = 0;
    for k in 0..entries {
        let e = block::entry_of(b, k as u16);
        marks += unpromoted(e);
        hours += hour_of_now(jkf::time_of(e));
    }
    Lost { marks, hours }
}

// How many entries the lines have that are written: all before the first entry of the first line left out.
fn written(b: &[u8], left_out: u64) -> usize
    ensures { result < 65536 }
{
    let lines = block::lines_in(b) as u64;
    if left_out == 0 {
        return block::moves_in(b);
    }
    if lines < left_out {
        return 0;
    }
    block::first_entry(b, (lines - left_out) as u16)
}

// Says what was lost where so many lines were left out.
pub(crate) fn tell(rt: &impl Streams, name: &[u8], b: &[u8], left_out: u64) {
    let l = count_lost(b, written(b, left_out));
    notes::tell_some(
        rt,
        Kind::Note,
        name,
        b"lines left out, from the first that starts at ply 0 on: %",
        left_out,
    );
    notes::tell_some(
        rt,
        Kind::Note,
        name,
        b"marks \xe4\xb8\x8d\xe6\x88\x90 that are not written: %",
        l.marks as u64,
    );
    notes::tell_some(
        rt,
        Kind::Note,
        name,
        b"hours of a move's own time that are not written: %",
        l.hours as u64,
    );
}
