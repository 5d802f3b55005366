// The lines of play as a tree: each below the one that it hangs on, by its first moves.
ghost use Rattle.std.specs.Prelude.{◌≤◌};

use crate::notes::{Stream, Streams};
use crate::{notes, shows};
use std::io;

// How deep a line hangs, of the first 12 steps up.
fn depth(b: &[u8], k: u16) -> usize
    ensures { result ≤ 12 }
{
    let mut line = k;
    for d in 0..12 {
        let parent = block::parent_of(b, line);
        if line as usize <= parent {
            return d;
        }
        line = shows::short(parent);
    }
    12
}

// Whether an entry of a line has a comment.
fn is_commented(b: &[u8], k: u16, entry: u16) -> bool {
    let e = shows::short(block::first_entry(b, k) + entry as usize);
    block::comment_count(b, e) != 0
}

// Whether one of the entries from one to another has.
fn are_commented(b: &[u8], k: u16, from: u16, to: u16) -> bool {
    (from..to).any(|i| is_commented(b, k, i))
}

// The mark of a comment.
fn print_mark(rt: &impl Print, is_there: bool) -> io::Result<()> {
    if is_there {
        return rt.write_all(b"*");
    }
    Ok(())
}

// An entry of a line.
fn print_entry(rt: &impl Streams, b: &[u8], k: u16, entry: u16) -> io::Result<()> {
    rt.write_all(b"  ")?;
    shows::say_move(rt, Stream::Output, b, k, entry)?;
    print_mark(rt, is_commented(b, k, entry))
}

// How far a line goes whose other entries are not shown, marked where one of them is.
fn print_last(rt: &impl Streams, b: &[u8], k: u16, from: u16, count: u16) -> io::Result<()> {
    let past = block::start_of(b, k) as u64 + count as u64;
    notes::say(rt, Stream::Output, b"  .. %", &[past.saturating_sub(1)])?;
    print_mark(rt, are_commented(b, k, from, count))
}

// The first three entries of a line from one on, and how far it goes.
fn print_entries(rt: &impl Streams, b: &[u8], k: u16, from: u16) -> io::Result<()> {
    let count = shows::short(block::entry_count(b, k));
    let past = from.saturating_add(3).min(count);
    for i in from..past {
        print_entry(rt, b, k, i)?;
    }
    if past < count {
        print_last(rt, b, k, past, count)?;
    }
    Ok(())
}

// A line; the comments that stand before the first move are those of the main line's first entry.
fn print_line(rt: &impl Streams, b: &[u8], k: u16) -> io::Result<()> {
    rt.write_all(lent::front(b"                        ", 2 * depth(b, k)))?;
    notes::say(rt, Stream::Output, b"line %:", &[k as u64])?;
    if k != 0 {
        print_entries(rt, b, k, 0)?;
    } else {
        if is_commented(b, k, 0) {
            rt.write_all(b"  start*")?;
        }
        print_entries(rt, b, k, 1)?;
    }
    rt.write_all(b"\n")
}

// All of them.
pub(crate) fn print(rt: &impl Streams, b: &[u8]) -> io::Result<()> {
    for k in 0..shows::short(block::lines_in(b)) {
        print_line(rt, b, k)?;
    }
    Ok(())
}
