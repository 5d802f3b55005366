// What each mode says of an entry: its mark, its origin and its time.
ghost use Rattle.std.specs.Prelude.{◌≡◌};
ghost use Rattle.converter.specs.declared.Mode.TheVariants.{Plain};
ghost use Rattle.converter.specs.Said.{hour, minute, second, as_drop, said_mark, said_origin, said_time, said_move, said_entry};

use crate::Mode;
use jkf::{Clock, Entry, Move, Time};

// The plain text has no 不成.
fn said_mark(mode: Mode, promote: u8) -> u8
    ensures { result ≡ said_mark mode promote }
{
    match mode {
        Mode::Plain => { if promote == 1 { 0 } else { promote } }
        Mode::Whole | Mode::Shared => promote,
    }
}

fn hour(c: Clock) -> u8
    ensures { result ≡ hour c }
{
    match c {
        Clock::Hms(h, _, _) => h,
        Clock::Ms(_, _) => 0,
    }
}

fn minute(c: Clock) -> u8
    ensures { result ≡ minute c }
{
    match c {
        Clock::Hms(_, m, _) => m,
        Clock::Ms(m, _) => m,
    }
}

fn second(c: Clock) -> u8
    ensures { result ≡ second c }
{
    match c {
        Clock::Hms(_, _, s) => s,
        Clock::Ms(_, s) => s,
    }
}

// What the plain text says of a time: now without its hour, the total with one.
fn plain_time(time: Time) -> Time
    ensures { result ≡ said_time Plain time }
{
    match time {
        Time::Untimed => Time::Untimed,
        Time::Timed(now, total) => {
            let short = Clock::Ms(minute(now), second(now));
            let long = Clock::Hms(hour(total), minute(total), second(total));
            Time::Timed(short, long)
        }
    }
}

fn said_time(mode: Mode, time: Time) -> Time
    ensures { result ≡ said_time mode time }
{
    match mode {
        Mode::Plain => plain_time(time),
        Mode::Whole | Mode::Shared => time,
    }
}

// An origin of (0,0) as one that is not known.
fn as_drop(from: Option<(u8, u8)>) -> Option<(u8, u8)>
    ensures { result ≡ as_drop from }
{
    match from {
        None => None,
        Some((x, y)) => {
            if x == 0 && y == 0 {
                return None;
            }
            Some((x, y))
        }
    }
}

// The shared text has 打 for an origin of (0,0).
fn said_origin(mode: Mode, from: Option<(u8, u8)>) -> Option<(u8, u8)>
    ensures { result ≡ said_origin mode from }
{
    match mode {
        Mode::Plain | Mode::Whole => from,
        Mode::Shared => as_drop(from),
    }
}

fn said_move(mode: Mode, m: Move) -> Move
    ensures { result ≡ said_move mode m }
{
    Move {
        promote: said_mark(mode, m.promote),
        from: said_origin(mode, m.from),
        time: said_time(mode, m.time),
        ..m
    }
}

pub(crate) fn said_entry(mode: Mode, e: Entry) -> Entry
    ensures { result ≡ said_entry mode e }
{
    match e {
        Entry::Slot => Entry::Slot,
        Entry::Moved(m) => Entry::Moved(said_move(mode, m)),
        Entry::End(s, t) => Entry::End(s, said_time(mode, t)),
    }
}
