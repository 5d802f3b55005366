// A time in brackets: what the move took, and the total.
ghost use Rattle.std.specs.Prelude.{◌≡◌, true, ◌+◌, ◌≤◌, length};
ghost use Rattle.moves.specs.Moves.{clock_at, spaced_at, clocks_at, time_at, figure_at};
ghost use Rattle.moves.specs.inner.Usuals.{Two, two_digits, UsualNow, UsualTotal, Usual};

use crate::Timing;
use jkf::{Clock, Time};
use text::{Cursor, FigureError};

// A number up to 255 and the colon after it; a number that is too large is told, whatever follows it.
pub(crate) fn figure(c: Cursor, s: &[u8]) -> Result<(u64, Cursor), FigureError>
    ensures { result ≡ figure_at s.now c.at }
{
    let (n, past) = c.digits(s, 255)?;
    let Some(end) = past.tag(s, b":") else {
        return Err(FigureError::Absent);
    };
    Ok((n, end))
}

// h:m:s, or else m:s, with the figures before the last read once.   (the Rust's move_time_format)
fn clock(c: Cursor, s: &[u8]) -> Option<(Clock, Cursor)>
    ensures { result ≡ clock_at s.now c.at }
{
    let Ok((a, first)) = figure(c, s) else {
        return None;
    };
    let Ok((b, second)) = first.digits(s, 255) else {
        return None;
    };
    let Some(third) = second.tag(s, b":") else {
        return Some((Clock::Ms(a as u8, b as u8), second));
    };
    let Ok((n, end)) = third.digits(s, 255) else {
        return Some((Clock::Ms(a as u8, b as u8), second));
    };
    Some((Clock::Hms(a as u8, b as u8, n as u8), end))
}

// With blanks around it.
pub(crate) fn spaced(c: Cursor, s: &[u8]) -> Option<(Clock, Cursor)>
    ensures { result ≡ spaced_at s.now c.at }
{
    let (k, end) = clock(c.blanks(s), s)?;
    Some((k, end.blanks(s)))
}

// The two clocks and the bracket after them; where they cannot be read, none.   (the Rust's move_time)
fn two_clocks(c: Cursor, s: &[u8], none: Timing) -> Timing
    ensures { result ≡ clocks_at s.now c.at none }
{
    let Some((now, first)) = spaced(c, s) else {
        return none;
    };
    let Some(slash) = first.tag(s, b"/") else {
        return none;
    };
    let Some((total, second)) = spaced(slash, s) else {
        return none;
    };
    let Some(end) = second.tag(s, b")") else {
        return none;
    };
    Timing {
        time: Time::Timed(now, total),
        next: end,
    }
}

// A time, or none.
pub(crate) fn time(c: Cursor, s: &[u8]) -> Timing
    ensures { result ≡ time_at s.now c.at }
{
    let none = Timing {
        time: Time::Untimed,
        next: c,
    };
    let Some(inside) = c.tag(s, b"(") else {
        return none;
    };
    two_clocks(inside, s, none)
}

// Whether two digits stand at a place.
fn two(s: &[u8], at: usize) -> bool
    requires { at + 2 ≤ length s.now }
    ensures { result ≡ true → Two s.now at }
{
    if !text::is_digit(s[at]) {
        return false;
    }
    text::is_digit(s[at + 1])
}

// The number of two digits.
fn value(s: &[u8], at: usize) -> u8
    requires { Two s.now at }
    ensures { result ≡ two_digits s.now at }
{
    (s[at] - b'0') * 10 + (s[at + 1] - b'0')
}

// Whether `( m:ss/` stands at a place.
fn shows_now(s: &[u8], at: usize) -> bool
    requires { at + 7 ≤ length s.now }
    ensures { result ≡ true → UsualNow s.now at }
{
    if s[at] != b'(' {
        return false;
    }
    if s[at + 1] != b' ' {
        return false;
    }
    if !text::is_digit(s[at + 2]) {
        return false;
    }
    if s[at + 3] != b':' {
        return false;
    }
    if !two(s, at + 4) {
        return false;
    }
    s[at + 6] == b'/'
}

// Whether `hh:mm:ss)` stands at a place.
fn shows_total(s: &[u8], at: usize) -> bool
    requires { at + 9 ≤ length s.now }
    ensures { result ≡ true → UsualTotal s.now at }
{
    if !two(s, at) {
        return false;
    }
    if s[at + 2] != b':' {
        return false;
    }
    if !two(s, at + 3) {
        return false;
    }
    if s[at + 5] != b':' {
        return false;
    }
    if !two(s, at + 6) {
        return false;
    }
    s[at + 8] == b')'
}

// Whether a time stands at a place in the form in which it is mostly written: ( m:ss/hh:mm:ss)
pub(crate) fn is_usual(s: &[u8], at: usize) -> bool
    ensures { result ≡ true → Usual s.now at }
{
    if s.len() < 16 {
        return false;
    }
    if s.len() - 16 < at {
        return false;
    }
    if !shows_now(s, at) {
        return false;
    }
    shows_total(s, at + 7)
}

// A time in that form.
pub(crate) fn usual(s: &[u8], at: usize) -> Timing
    requires { Usual s.now at }
    ensures { result ≡ time_at s.now at }
{
    let m = s[at + 2] - b'0';
    let now = Clock::Ms(m, value(s, at + 4));
    let total = Clock::Hms(value(s, at + 7), value(s, at + 10), value(s, at + 13));
    Timing {
        time: Time::Timed(now, total),
        next: Cursor { at: at + 16 },
    }
}
