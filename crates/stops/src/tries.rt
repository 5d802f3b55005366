// What was tried where reading stopped.
ghost use Rattle.std.specs.Prelude.{◌≡◌};
ghost use Rattle.plays.specs.Plays.{skips_at};
ghost use Rattle.stops.specs.Stopping.{seeking_at, tried_at, stopped_at, reason_number, stop_figures};

use crate::{Seeking, StopAnswer};
use moves::Reason;
use text::Cursor;

// What stands before the place p, where the lines of play begin at a place and the last of them ends at another.
fn seeking_at(begin: Cursor, end: Cursor, p: Cursor) -> Seeking
    ensures { result ≡ seeking_at begin.at end.at p.at }
{
    if p.at == begin.at {
        return Seeking::AtHead;
    }
    if end.at == p.at {
        return Seeking::AfterComments;
    }
    Seeking::AfterSkips
}

// What the rules that are tried at a place say, in their order.
fn tried(seeking: Seeking, c: Cursor, s: &[u8]) -> Option<(usize, Reason)>
    ensures { result ≡ tried_at seeking s.now c.at }
{
    let comment = moves::comment_fails(c, s);
    let played = moves::move_line_fails(c, s);
    let skip = moves::skip_line_fails(c, s);
    match seeking {
        Seeking::AtHead => moves::further_of(skip, moves::further_of(comment, played)),
        Seeking::AfterComments => moves::further_of(comment, moves::further_of(played, skip)),
        Seeking::AfterSkips => moves::further_of(skip, played),
    }
}

// Why reading stopped, with so much taken.
pub(crate) fn stopped(begin: Cursor, end: Cursor, taken: Cursor, s: &[u8]) -> StopAnswer
    ensures { result ≡ stopped_at s.now begin.at end.at taken.at }
{
    let p = plays::skips(taken, s);
    match tried(seeking_at(begin, end, p), p, s) {
        None => StopAnswer::Stopped(taken.at as u64, Reason::EndOfText, p.at as u64),
        Some((at, reason)) => StopAnswer::Stopped(taken.at as u64, reason, at as u64),
    }
}

// The number of a reason in 02's list.
fn reason_number(r: Reason) -> u64
    ensures { result ≡ reason_number r }
{
    match r {
        Reason::NoNumber => 1,
        Reason::TooLarge => 2,
        Reason::NoPlace => 3,
        Reason::NoKind => 4,
        Reason::NoOrigin => 5,
        Reason::NoBreak => 6,
        Reason::CommentHere => 7,
        Reason::EndOfText => 8,
    }
}

// The number of refusal and six figures.
pub fn stop_figures(stop: StopAnswer) -> [u64; 7]
    ensures { result ≡ stop_figures stop }
{
    match stop {
        StopAnswer::TextTooLong(n) => [1, n, 0, 0, 0, 0, 0],
        StopAnswer::NotUtf8(n) => [2, n, 0, 0, 0, 0, 0],
        StopAnswer::HandLine(at) => [3, at, 0, 0, 0, 0, 0],
        StopAnswer::NoEntry(a) => [6, a.variation, a.ply, a.parent, a.first, a.last, a.at],
        StopAnswer::Stopped(taken, reason, at) => [0, taken, reason_number(reason), at, 0, 0, 0],
    }
}
