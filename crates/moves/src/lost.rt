// A time that is lost to a figure too large.   (02, request (iv))
ghost use Rattle.std.specs.Prelude.{◌≡◌};
ghost use Rattle.moves.specs.Moves.{time_at};
ghost use Rattle.moves.specs.Lost.{is_large, forms_over, over_at, lost_at};

use crate::clocks::{figure, spaced};
use jkf::Time;
use text::{Cursor, FigureError};

// Whether a number is too large.
fn is_large(n: Result<(u64, Cursor), FigureError>) -> bool
    ensures { result ≡ is_large n }
{
    matches!(n, Err(FigureError::TooLarge))
}

// Whether one of a clock's forms comes to a figure too large: h:m:s comes to every figure that m:s comes to.
fn clock_over(c: Cursor, s: &[u8]) -> bool
    ensures { result ≡ forms_over s.now c.at }
{
    let first = figure(c, s);
    let Ok((_, past)) = first else {
        return is_large(first);
    };
    let second = figure(past, s);
    let Ok((_, end)) = second else {
        return is_large(second);
    };
    is_large(end.digits(s, 255))
}

// Whether one of the two clocks of a bracket does; the second is read only where the first was, and the / behind it.
fn over(c: Cursor, s: &[u8]) -> bool
    ensures { result ≡ over_at s.now c.at }
{
    let Some(inside) = c.tag(s, b"(") else {
        return false;
    };
    if clock_over(inside.blanks(s), s) {
        return true;
    }
    let Some((_, now)) = spaced(inside, s) else {
        return false;
    };
    let Some(slash) = now.tag(s, b"/") else {
        return false;
    };
    clock_over(slash.blanks(s), s)
}

// Whether the time that was read at a place is none for this cause.
pub(crate) fn is_lost(time: Time, c: Cursor, s: &[u8]) -> bool
    requires { time ≡ (time_at s.now c.at).time }
    ensures { result ≡ lost_at s.now c.at }
{
    match time {
        Time::Untimed => over(c, s),
        Time::Timed(_, _) => false,
    }
}
