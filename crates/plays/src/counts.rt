// Lines of play, counted.
ghost use Rattle.std.specs.Prelude.{◌≡◌, ◌+◌, eqb};
ghost use Rattle.lists.specs.Pick.{pick};
ghost use Rattle.plays.specs.Plays.{ply_at, sequence_at, skipped_at, skips_at};
ghost use Rattle.plays.specs.Counted.{remarks_at, extent_of, extent_at};
ghost use Rattle.plays.specs.inner.Extending.{Roomy, extended};
ghost use Rattle.plays.specs.inner.Runs.{goes_on, run_at};

use crate::{Extent, Remarks};
use text::Cursor;

// Comments from a place on.
pub fn count_comments(c: Cursor, s: &[u8]) -> Remarks
    ensures { result ≡ remarks_at s.now c.at }
{
    let mut count = 0;
    let mut bytes = 0;
    let mut next = c;
    loop {
        if !moves::begins_comment(s, next.at) {
            return Remarks { count, bytes, next };
        }
        let Some(remark) = moves::comment_line(next, s) else {
            return Remarks { count, bytes, next };
        };
        count += 1;
        bytes += remark.to.at - remark.from.at;
        next = remark.next;
    }
}

// The number that is printed at a place.
#[tactic(auto, unfolding(crate::specs::Plays::ply_at))]
pub fn ply(c: Cursor, s: &[u8]) -> u64
    ensures { result ≡ ply_at s.now c.at }
{
    c.blanks(s).digits(s, u64::MAX).map_or(0, |(n, _)| n)
}

// One entry more, with its comments.
fn extended(x: Extent, remarks: Remarks) -> Extent
    requires { Roomy x remarks }
    ensures { result ≡ extended x remarks }
{
    let next = remarks.next;
    Extent {
        entries: x.entries + 1,
        comments: x.comments + remarks.count,
        bytes: x.bytes + remarks.bytes,
        next,
    }
}

// Whether a number is the k-th after n.
fn is_next(number: u64, n: u64, k: usize) -> bool
    ensures { result ≡ eqb number (n + k) }
{
    if number < n {
        return false;
    }
    number - n == k as u64
}

// Whether the move line at a place goes with those before it: any does, or else one whose number is the k-th after n.
fn goes_on(any: bool, c: Cursor, s: &[u8], n: u64, k: usize) -> bool
    ensures { result ≡ goes_on any (n + k) s.now c.at }
{
    if any {
        return true;
    }
    is_next(ply(c, s), n, k)
}

// A line of play from a place on, whole or as far as its numbers go up by one from n: move lines, each with its comments.
fn count_run(any: bool, c: Cursor, s: &[u8], n: u64) -> Extent
    ensures { result ≡ extent_of (run_at any n s.now c.at) }
{
    let mut x = Extent {
        entries: 0,
        comments: 0,
        bytes: 0,
        next: c,
    };
    loop {
        let Some(past) = moves::move_line_end(x.next, s) else {
            return x;
        };
        if !goes_on(any, x.next, s, n, x.entries) {
            return x;
        }
        x = extended(x, count_comments(past, s));
    }
}

// A line of play from a place on.   (the Rust's moves_with_index)
pub fn count_moves(c: Cursor, s: &[u8]) -> Extent
    ensures { result ≡ extent_at s.now c.at }
{
    count_run(true, c, s, 0)
}

// A line of play from a place on, as far as its numbers go up by one from n.
pub fn count_sequence(c: Cursor, s: &[u8], n: u64) -> Extent
    ensures { result ≡ extent_of (sequence_at n s.now c.at) }
{
    count_run(false, c, s, n)
}

// Past one skip line, if it is there.
#[tactic(auto, unfolding(crate::specs::Plays::skipped_at))]
pub fn skipped(c: Cursor, s: &[u8]) -> Cursor
    ensures { result.at ≡ skipped_at s.now c.at }
{
    moves::skip_line(c, s).unwrap_or(c)
}

// Past a line of play of so many entries, which ends at a place, and past the skip line that may stand behind it; the place before it where it
// has no entry.
pub fn past(before: Cursor, entries: usize, end: Cursor, s: &[u8]) -> Cursor
    ensures { result.at ≡ pick (eqb entries 0) before.at (skipped_at s.now end.at) }
{
    if entries == 0 {
        return before;
    }
    skipped(end, s)
}

// Past as many skip lines as there are.
pub fn skips(c: Cursor, s: &[u8]) -> Cursor
    ensures { result.at ≡ skips_at s.now c.at }
{
    let mut next = c;
    while let Some(past) = moves::skip_line(next, s) {
        next = past;
    }
    next
}
