// An entry's 20 bytes, both ways.
ghost use Rattle.std.specs.Prelude.{◌≡◌, [], ◌∷◌, ◌≤◌, length, drop};
ghost use Rattle.lent.specs.Bytes.{Wrote, fitting};
ghost use Rattle.lent.specs.Stored.{Stored};
ghost use Rattle.block.specs.EntryBytes.{from_mark, same_mark, hour_mark, time_mark, target_bytes, origin_bytes, clock_bytes, time_bytes, entry_head, entry_bytes, clock_of, time_in, target_in, origin_in, move_in, entry_in};

use crate::rows::bytes16;
use jkf::{Clock, Entry, Move, Special, Target, Time};

// A mark and the two bytes of a square.
#[derive(Clone, Copy)]
struct Field {
    mark: u8,
    x: u8,
    y: u8,
}

// A mark and the three bytes of a clock.
#[derive(Clone, Copy)]
struct Figure {
    mark: u8,
    h: u8,
    m: u8,
    s: u8,
}

fn target_field(t: Target) -> Field
    ensures { (result.mark ≡ same_mark t) × (result.mark ≤ 2) × ((result.x ∷ result.y ∷ []) ≡ target_bytes t) }
{
    match t {
        Target::Same => Field {
            mark: 2,
            x: 0,
            y: 0,
        },
        Target::Square(x, y) => Field { mark: 0, x, y },
    }
}

fn origin_field(o: Option<(u8, u8)>) -> Field
    ensures { (result.mark ≡ from_mark o) × (result.mark ≤ 1) × ((result.x ∷ result.y ∷ []) ≡ origin_bytes o) }
{
    match o {
        None => Field {
            mark: 0,
            x: 0,
            y: 0,
        },
        Some((x, y)) => Field { mark: 1, x, y },
    }
}

fn clock_figure(c: Clock, mark: u8) -> Figure
    ensures { (result.mark ≡ hour_mark mark c) × (result.mark ≤ mark) × ((result.h ∷ result.m ∷ result.s ∷ []) ≡ clock_bytes c) }
{
    match c {
        Clock::Hms(h, m, s) => Figure { mark, h, m, s },
        Clock::Ms(m, s) => Figure {
            mark: 0,
            h: 0,
            m,
            s,
        },
    }
}

fn time_mark(t: Time) -> u8
    ensures { (result ≡ time_mark t) × (result ≤ 28) }
{
    match t {
        Time::Untimed => 0,
        Time::Timed(now, total) => { 4 + clock_figure(now, 8).mark + clock_figure(total, 16).mark }
    }
}

fn put_time(out: &mut [u8], t: Time) -> usize
    requires { 6 ≤ length out.old }
    ensures { Wrote (time_bytes t) out.old out.new result }
{
    match t {
        Time::Untimed => lent::put_bytes(out, &[0, 0, 0, 0, 0, 0]),
        Time::Timed(now, total) => {
            let a = clock_figure(now, 8);
            let b = clock_figure(total, 16);
            lent::put_bytes(out, &[a.h, a.m, a.s, b.h, b.m, b.s])
        }
    }
}

fn put_move_head(out: &mut [u8], m: Move) -> usize
    requires { 9 ≤ length out.old }
    ensures { Wrote (entry_head (Entry.Moved m)) out.old out.new result }
{
    let target = m.to;
    let origin = m.from;
    let time = m.time;
    let to = target_field(target);
    let from = origin_field(origin);
    let marks = from.mark + to.mark + time_mark(time);
    lent::put_bytes(
        out,
        &[
            1, m.color, m.piece, m.promote, to.x, to.y, from.x, from.y, marks,
        ],
    )
}

fn put_head(out: &mut [u8], e: Entry) -> usize
    requires { 9 ≤ length out.old }
    ensures { Wrote (entry_head e) out.old out.new result }
{
    match e {
        Entry::Slot => lent::put_bytes(out, &[0, 0, 0, 0, 0, 0, 0, 0, 0]),
        Entry::Moved(m) => put_move_head(out, m),
        Entry::End(s, t) => {
            lent::put_bytes(out, &[2, u8::from(s), 0, 0, 0, 0, 0, 0, time_mark(t)])
        }
    }
}

// The bytes of an entry, for which there is room.
fn put_parts(out: &mut [u8], e: Entry, first: usize, count: usize) -> usize
    requires { 20 ≤ length out.old }
    ensures { Wrote (entry_bytes e first count) out.old out.new result }
{
    let a = put_head(out, e);
    let b = a + put_time(&mut out[a..], jkf::time_of(e));
    let first = bytes16(first as u64);
    let count = bytes16(count as u64);
    b + lent::put_bytes(&mut out[b..], &[0, first[0], first[1], count[0], count[1]])
}

// At the front, where there is room.
fn put_front(out: &mut [u8], e: Entry, first: usize, count: usize) -> usize
    ensures { Wrote (fitting (entry_bytes e first count) out.old) out.old out.new result }
{
    if out.len() < 20 {
        return 0;
    }
    put_parts(out, e, first, count)
}

// An entry with the number of its first comment and how many it has, stored from a place on; answers the place past it.
pub fn put_entry_row(out: &mut [u8], at: usize, e: Entry, first: usize, count: usize) -> usize
    ensures { Stored (fitting (entry_bytes e first count) (drop at out.old)) out.old out.new at result }
{
    if out.len() < at {
        return at;
    }
    at + put_front(&mut out[at..], e, first, count)
}

fn clock_of(hour: bool, h: u8, m: u8, s: u8) -> Clock
    ensures { result ≡ clock_of hour h m s }
{
    if hour {
        Clock::Hms(h, m, s)
    } else {
        Clock::Ms(m, s)
    }
}

fn time_in(s: &[u8]) -> Time
    ensures { result ≡ time_in s.now }
{
    let marks = lent::peek(s, 8);
    if marks / 4 % 2 == 1 {
        let now = clock_of(
            marks / 8 % 2 == 1,
            lent::peek(s, 9),
            lent::peek(s, 10),
            lent::peek(s, 11),
        );
        let total = clock_of(
            marks / 16 % 2 == 1,
            lent::peek(s, 12),
            lent::peek(s, 13),
            lent::peek(s, 14),
        );
        Time::Timed(now, total)
    } else {
        Time::Untimed
    }
}

fn target_in(s: &[u8]) -> Target
    ensures { result ≡ target_in s.now }
{
    if lent::peek(s, 8) / 2 % 2 == 1 {
        Target::Same
    } else {
        Target::Square(lent::peek(s, 4), lent::peek(s, 5))
    }
}

fn origin_in(s: &[u8]) -> Option<(u8, u8)>
    ensures { result ≡ origin_in s.now }
{
    if lent::peek(s, 8) % 2 == 1 {
        Some((lent::peek(s, 6), lent::peek(s, 7)))
    } else {
        None
    }
}

fn move_in(s: &[u8]) -> Move
    ensures { result ≡ move_in s.now }
{
    Move {
        color: lent::peek(s, 1),
        piece: lent::peek(s, 2),
        promote: lent::peek(s, 3),
        to: target_in(s),
        from: origin_in(s),
        time: time_in(s),
    }
}

// The entry that the bytes from here on say; bytes past the end are 0.
pub fn entry_in(s: &[u8]) -> Entry
    ensures { result ≡ entry_in s.now }
{
    match lent::peek(s, 0) {
        0 => Entry::Slot,
        2 => Entry::End(jkf::Special::from(lent::peek(s, 1)), time_in(s)),
        _ => Entry::Moved(move_in(s)),
    }
}
