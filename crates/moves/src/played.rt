// What is played: a special or a move.
ghost use Rattle.std.specs.Prelude.{◌≡◌, true, ◌+◌, ◌≤◌, ◌<◌, length, get_or};
ghost use Rattle.text.specs.Text.{stands_at};
ghost use Rattle.moves.specs.Moves.{square_at, move_to_at, promote_at, origin_at, move_from_at, kind_to_origin_at, what_at, finished, ending_at};
ghost use Rattle.spell.specs.Words.{promotes};
ghost use Rattle.moves.specs.inner.Usuals.{Bracketed, UsualTarget, UsualKind, UsualMove, aim_of, kind_of, mark_of, entry_of};

use crate::Mark;
use jkf::{Entry, Move, Target, Time};
use text::{Cursor, FigureError};

// A file and a rank.
fn square(c: Cursor, s: &[u8]) -> Option<(Target, Cursor)>
    ensures { result ≡ square_at s.now c.at }
{
    let (x, past) = spell::file(c, s)?;
    let (y, end) = spell::numeral(past, s)?;
    Some((Target::Square(x, y), end))
}

// 同 with one U+3000 or none, or a file and a rank.   (the Rust's move_to)
#[tactic(auto, unfolding(crate::specs::Moves::move_to_at))]
pub(crate) fn move_to(c: Cursor, s: &[u8]) -> Option<(Target, Cursor)>
    ensures { result ≡ move_to_at s.now c.at }
{
    let Some(past) = c.tag(s, b"\xe5\x90\x8c") else {
        return square(c, s);
    };
    Some((Target::Same, past.tag(s, b"\xe3\x80\x80").unwrap_or(past)))
}

// 成 or 不成 or neither.
pub(crate) fn promote(c: Cursor, s: &[u8]) -> Mark
    ensures { result ≡ promote_at s.now c.at }
{
    let Some(end) = c.tag(s, b"\xe6\x88\x90") else {
        let Some(past) = c.tag(s, b"\xe4\xb8\x8d\xe6\x88\x90") else {
            return Mark {
                promote: 0,
                next: c,
            };
        };
        return Mark {
            promote: 1,
            next: past,
        };
    };
    Mark {
        promote: 2,
        next: end,
    }
}

// A number in brackets, split into tens and ones; one that is too large is told, whatever follows it.
#[tactic(auto, unfolding(crate::specs::Moves::origin_at))]
fn origin(c: Cursor, s: &[u8]) -> Result<(Option<(u8, u8)>, Cursor), FigureError>
    ensures { result ≡ origin_at s.now c.at }
{
    let Some(inside) = c.tag(s, b"(") else {
        return Err(FigureError::Absent);
    };
    let (n, past) = inside.digits(s, 255)?;
    let Some(end) = past.tag(s, b")") else {
        return Err(FigureError::Absent);
    };
    Ok((Some(((n / 10) as u8, (n % 10) as u8)), end))
}

// 打, which is from (0,0), or an origin.   (the Rust's move_from)
fn move_from(c: Cursor, s: &[u8]) -> Result<(Option<(u8, u8)>, Cursor), FigureError>
    ensures { result ≡ move_from_at s.now c.at }
{
    let Some(end) = c.tag(s, b"\xe6\x89\x93") else {
        return origin(c, s);
    };
    Ok((Some((0, 0)), end))
}

// The kind, the mark and the origin, after the target; the line's number will say the colour.
fn piece(to: Target, c: Cursor, s: &[u8]) -> Option<(Entry, Cursor)>
    ensures { result ≡ kind_to_origin_at to s.now c.at }
{
    let (kind, past) = spell::kind(c, s)?;
    let mark = promote(past, s);
    let Ok((from, end)) = move_from(mark.next, s) else {
        return None;
    };
    Some((
        Entry::Moved(Move {
            color: 0,
            piece: kind,
            promote: mark.promote,
            to,
            from,
            time: Time::Untimed,
        }),
        end,
    ))
}

// A special.   (the Rust's move_special)
fn ending(c: Cursor, s: &[u8]) -> Option<(Entry, Cursor)>
    ensures { result ≡ ending_at s.now c.at }
{
    let (n, end) = spell::special(c, s)?;
    Some((Entry::End(jkf::Special::from(n), Time::Untimed), end))
}

// A special or a move: what has a target is a move, since no special begins as a target does.   (of the Rust's move_line)
pub(crate) fn what(c: Cursor, s: &[u8]) -> Option<(Entry, Cursor)>
    ensures { result ≡ what_at s.now c.at }
{
    let Some((to, past)) = move_to(c, s) else {
        return ending(c, s);
    };
    piece(to, past, s)
}

// Whether two digits in brackets stand at a place.
fn is_bracketed(s: &[u8], at: usize) -> bool
    requires { at + 4 ≤ length s.now }
    ensures { result ≡ true → Bracketed s.now at }
{
    if s[at] != b'(' {
        return false;
    }
    if !text::is_digit(s[at + 1]) {
        return false;
    }
    if !text::is_digit(s[at + 2]) {
        return false;
    }
    s[at + 3] == b')'
}

// Whether the rest of 同 and a wide space stand at a place where 同 may begin.
fn is_same(s: &[u8], at: usize) -> bool
    requires { (at + 6 ≤ length s.now) × (get_or s.now at 0 ≡ 229) }
    ensures { result ≡ true → UsualTarget s.now at }
{
    if s[at + 1] != 0x90 {
        return false;
    }
    if s[at + 2] != 0x8c {
        return false;
    }
    if s[at + 3] != 0xe3 {
        return false;
    }
    if s[at + 4] != 0x80 {
        return false;
    }
    s[at + 5] == 0x80
}

// Whether a full-width digit and a numeral stand at a place.
fn is_square(s: &[u8], at: usize) -> bool
    requires { at + 6 ≤ length s.now }
    ensures { result ≡ true → UsualTarget s.now at }
{
    if s[at] != 0xef {
        return false;
    }
    if s[at + 1] != 0xbc {
        return false;
    }
    if s[at + 2] < 0x91 {
        return false;
    }
    if 0x99 < s[at + 2] {
        return false;
    }
    spell::numeral_of(s[at + 3], s[at + 4], s[at + 5]) != 0
}

// Whether 同 with a wide space, or a square, stands at a place.
fn is_target(s: &[u8], at: usize) -> bool
    requires { at + 6 ≤ length s.now }
    ensures { result ≡ true → UsualTarget s.now at }
{
    if s[at] == 0xe5 {
        return is_same(s, at);
    }
    is_square(s, at)
}

// Whether 成 stands at a place.
fn is_promotion(s: &[u8], at: usize) -> bool
    requires { at + 3 ≤ length s.now }
    ensures { result ≡ stands_at promotes s.now at }
{
    if s[at] != 0xe6 {
        return false;
    }
    if s[at + 1] != 0x88 {
        return false;
    }
    s[at + 2] == 0x90
}

// Whether a kind of one character and its origin stand after the target at a place.
fn is_short(s: &[u8], at: usize) -> bool
    requires { at + 13 ≤ length s.now }
    ensures { result ≡ true → UsualKind s.now at 13 }
{
    if !is_bracketed(s, at + 9) {
        return false;
    }
    spell::kind_of(s[at + 6], s[at + 7], s[at + 8]) != 0
}

// Whether 成 and a kind, or a kind and 成, and its origin do.
fn is_long(s: &[u8], at: usize) -> bool
    requires { at + 16 ≤ length s.now }
    ensures { result ≡ true → UsualKind s.now at 16 }
{
    if !is_bracketed(s, at + 12) {
        return false;
    }
    if is_promotion(s, at + 6) {
        return spell::promoted_of(s[at + 9], s[at + 10], s[at + 11]) != 0;
    }
    if !is_promotion(s, at + 9) {
        return false;
    }
    spell::kind_of(s[at + 6], s[at + 7], s[at + 8]) != 0
}

// How many bytes the move at a place has in the form in which it is mostly written; 0 where it has another or none stands.
pub(crate) fn usual_width(s: &[u8], at: usize) -> usize
    ensures { 0 < result → UsualMove s.now at result }
{
    if s.len() < 16 {
        return 0;
    }
    if s.len() - 16 < at {
        return 0;
    }
    if !is_target(s, at) {
        return 0;
    }
    if is_short(s, at) {
        return 13;
    }
    if is_long(s, at) { 16 } else { 0 }
}

// The target of a move in the usual form.
fn usual_aim(s: &[u8], at: usize) -> Target
    requires { (at + 6 ≤ length s.now) × UsualTarget s.now at }
    ensures { result ≡ aim_of s.now at }
{
    if s[at] == 0xe5 {
        return Target::Same;
    }
    Target::Square(
        s[at + 2] - 0x90,
        spell::numeral_of(s[at + 3], s[at + 4], s[at + 5]),
    )
}

// The kind of a move in the usual form.
fn usual_kind(s: &[u8], at: usize) -> u8
    requires { at + 12 ≤ length s.now }
    ensures { result ≡ kind_of s.now at }
{
    if is_promotion(s, at + 6) {
        return spell::promoted_of(s[at + 9], s[at + 10], s[at + 11]);
    }
    spell::kind_of(s[at + 6], s[at + 7], s[at + 8])
}

// The mark of a move in the usual form.
fn usual_mark(s: &[u8], at: usize, width: usize) -> u8
    requires { at + 9 ≤ length s.now }
    ensures { result ≡ mark_of s.now at width }
{
    if width == 13 {
        return 0;
    }
    if is_promotion(s, at + 6) { 0 } else { 2 }
}

// A move in that form.
pub(crate) fn usual(s: &[u8], at: usize, width: usize, color: u8, time: Time) -> Entry
    requires { UsualMove s.now at width }
    ensures { result ≡ finished color time (entry_of s.now at width) }
{
    Entry::Moved(Move {
        color,
        piece: usual_kind(s, at),
        promote: usual_mark(s, at, width),
        to: usual_aim(s, at),
        from: Some((s[at + width - 3] - b'0', s[at + width - 2] - b'0')),
        time,
    })
}
