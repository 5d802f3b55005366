// A line of play, filled into a block.
ghost use Rattle.std.specs.Prelude.{◌≡◌};
ghost use Rattle.filling.specs.Filling.{put_comments, put_noted, put_entries};
ghost use Rattle.plays.specs.Plays.{noted, comments_at, entries_at};
ghost use Rattle.plays.specs.Losses.{one, lost_from};

use crate::{FilledPlay, Reached};
use filling::Walk;
use jkf::Entry;
use text::Cursor;

// The comments from a place on.
pub fn fill_comments(s: &[u8], c: Cursor, w: Walk, out: &mut [u8]) -> Reached
    ensures walk_value { result.walk ≡ (put_comments (comments_at s.now c.at).state w out.old).walk }
    ensures out_after { out.new ≡ (put_comments (comments_at s.now c.at).state w out.old).buffer }
    ensures at_value { result.next.at ≡ (comments_at s.now c.at).at }
{
    let mut walk = w;
    let mut next = c;
    loop {
        if !moves::begins_comment(s, next.at) {
            return Reached { walk, next };
        }
        let Some(remark) = moves::comment_line(next, s) else {
            return Reached { walk, next };
        };
        let start = remark.from.at;
        let end = remark.to.at;
        walk = filling::put_comment(out, walk, &s[start..end]);
        next = remark.next;
    }
}

// An entry with the comments from a place on: these first, since its bytes say how many they are.
fn fill_noted(s: &[u8], e: Entry, c: Cursor, w: Walk, out: &mut [u8]) -> Reached
    ensures walk_value { result.walk ≡ (put_noted (noted e (comments_at s.now c.at).state) w out.old).walk }
    ensures out_after { out.new ≡ (put_noted (noted e (comments_at s.now c.at).state) w out.old).buffer }
    ensures at_value { result.next.at ≡ (comments_at s.now c.at).at }
{
    let comments = fill_comments(s, c, w, out);
    let next = comments.next;
    let walk = filling::put_entry(out, comments.walk, e, w.noted);
    Reached { walk, next }
}

// 1 for yes, 0 for no.
fn one(b: bool) -> usize
    ensures { result ≡ one b }
{
    if b { 1 } else { 0 }
}

// A line of play from a place on, and how many of its times were lost.   (the Rust's moves_with_index; 02, request (iv))
pub fn fill_moves(s: &[u8], c: Cursor, w: Walk, out: &mut [u8]) -> FilledPlay
    ensures walk_value { result.walk ≡ (put_entries (entries_at s.now c.at).state w out.old).walk }
    ensures out_after { out.new ≡ (put_entries (entries_at s.now c.at).state w out.old).buffer }
    ensures at_value { result.next.at ≡ (entries_at s.now c.at).at }
    ensures lost_value { result.lost ≡ lost_from s.now c.at }
{
    let mut walk = w;
    let mut next = c;
    let mut lost = 0;
    loop {
        let taken = moves::taken_line(next, s);
        let Some(line) = taken.line else {
            return FilledPlay { walk, next, lost };
        };
        let entry = fill_noted(s, line.entry, line.next, walk, out);
        walk = entry.walk;
        next = entry.next;
        lost += one(taken.lost);
    }
}
