// Information lines, and the blocks that they make.
ghost use Rattle.std.specs.Prelude.{◌≡◌, ◌+◌, ◌<◌, length, drop};
ghost use Rattle.lent.specs.Stored.{put};
ghost use Rattle.text.specs.Text.{ends_key, key_at};
ghost use Rattle.jkf.specs.Model.{Header};
ghost use Rattle.kakinoki.specs.Informations.{hash_line_at, hash_lines_at, ends_line, preset_line_at, turn_line_at, value_at, key_value_at, empty_hand, information, keyed_at, hands_or_keyed_at, information_at, is_line, said_of, fault_of, tell, keyed_place, header_places_at, low16};
ghost use Rattle.kakinoki.specs.inner.Blocks.{block_at};

use crate::hands::{hand_line, padded_end};
use crate::{Held, Info, Information, InformationBlock, KeyValue, Told};
use text::Cursor;

// # and the rest of its line.   (the Rust's comment_line)
fn hash_line(c: Cursor, s: &[u8]) -> Option<Cursor>
    ensures { result ≡ hash_line_at s.now c.at }
{
    let past = c.tag(s, b"#")?;
    past.line_end(s)
}

// Past as many of them as there are.
fn hash_lines(c: Cursor, s: &[u8]) -> Cursor
    ensures { result.at ≡ hash_lines_at s.now c.at }
{
    let mut next = c;
    while let Some(past) = hash_line(next, s) {
        next = past;
    }
    next
}

// A number past the padding and the break after it.
fn ends_line(n: u8, c: Cursor, s: &[u8]) -> Option<(u8, Cursor)>
    ensures { result ≡ ends_line s.now n c.at }
{
    let end = padded_end(c, s)?;
    Some((n, end))
}

// 手合割： and one of the names.   (the Rust's information_line_preset)
fn preset_line(c: Cursor, s: &[u8]) -> Option<(u8, Cursor)>
    ensures { result ≡ preset_line_at s.now c.at }
{
    let inside = c.tag(s, b"\xe6\x89\x8b\xe5\x90\x88\xe5\x89\xb2\xef\xbc\x9a")?;
    let (n, end) = spell::preset(inside, s)?;
    ends_line(n, end, s)
}

// A side and 番.   (the Rust's information_line_color)
fn turn_line(c: Cursor, s: &[u8]) -> Option<(u8, Cursor)>
    ensures { result ≡ turn_line_at s.now c.at }
{
    let (n, past) = spell::side(c, s)?;
    let end = past.tag(s, b"\xe7\x95\xaa")?;
    ends_line(n, end, s)
}

// Whether a key ends at a place.
fn ends_key(s: &[u8], at: usize) -> bool
    ensures { result ≡ ends_key (drop at s.now) }
{
    s.len() <= at || s[at] == b'\n' || s[at] == b'\r' || text::stands(s, at, b"\xef\xbc\x9a")
}

// Past bytes that surely are of the key: one range of them is asked for, which is faster than what may end it.
fn key_run(s: &[u8], from: usize) -> usize
    ensures { from + length (key_at s.now from) ≡ result + length (key_at s.now result) }
{
    let mut at = from;
    // no range: past the text's end it would end at that end and not here
    while at < s.len() && 14 <= s[at] && s[at] <= 238 {
        at += 1;
    }
    at
}

// Where the key that begins at a place ends.
fn key_end(c: Cursor, s: &[u8]) -> Cursor
    ensures { result.at ≡ c.at + length (key_at s.now c.at) }
{
    let mut at = key_run(s, c.at);
    while !ends_key(s, at) {
        at += 1;
    }
    Cursor { at }
}

// ：, the value, break.
fn value(c: Cursor, s: &[u8]) -> Option<KeyValue>
    ensures { result ≡ value_at s.now c.at }
{
    let from = c.tag(s, b"\xef\xbc\x9a")?;
    let to = from.tail(s)?;
    let next = to.line_ending(s)?;
    Some(KeyValue { from, to, next })
}

// A key that is not empty, and its value.   (the Rust's information_line_keyvalue)
pub fn key_value(c: Cursor, s: &[u8]) -> Option<KeyValue>
    ensures { result ≡ key_value_at s.now c.at }
{
    let end = key_end(c, s);
    if end.at == c.at {
        return None;
    }
    value(end, s)
}

// A line that says no hand.
fn handless(info: Info, next: Cursor) -> Information
    ensures { result ≡ information info empty_hand next }
{
    Information {
        info,
        counts: [0; 7],
        next,
    }
}

// Key and value, or no information line.
fn keyed(c: Cursor, s: &[u8]) -> Information
    ensures { result ≡ keyed_at s.now c.at }
{
    let Some(pair) = key_value(c, s) else {
        return handless(Info::Nothing, c);
    };
    handless(Info::Keyed, pair.next)
}

// What is neither a preset nor a turn: a hand line, or key and value.
fn hands_or_keyed(c: Cursor, s: &[u8]) -> Information
    ensures { result ≡ hands_or_keyed_at s.now c.at }
{
    let line = hand_line(c, s);
    let counts = line.counts;
    match line.held {
        Held::By(side, next) => Information {
            info: Info::Hands(side),
            counts,
            next,
        },
        Held::Unreadable => handless(Info::Refused, c),
        Held::NoHand => keyed(c, s),
    }
}

// An information line.
fn information(c: Cursor, s: &[u8]) -> Information
    ensures { result ≡ information_at s.now c.at }
{
    let Some((preset, past)) = preset_line(c, s) else {
        let Some((turn, end)) = turn_line(c, s) else {
            return hands_or_keyed(c, s);
        };
        return handless(Info::Turn(turn), end);
    };
    handless(Info::Preset(preset), past)
}

fn is_line(info: Info) -> bool
    ensures { result ≡ is_line info }
{
    match info {
        Info::Preset(_) | Info::Turn(_) | Info::Hands(_) | Info::Keyed => true,
        Info::Refused | Info::Nothing => false,
    }
}

fn fault(info: Info, c: Cursor) -> Option<usize>
    ensures { result ≡ fault_of info c.at }
{
    match info {
        Info::Refused => Some(c.at),
        _ => None,
    }
}

// What a block says with one line more.
fn tell(told: Told, info: Info, counts: [u8; 7]) -> Told
    ensures { (h : Header) → result ≡ tell told (said_of info counts h) }
{
    match info {
        Info::Preset(n) => Told {
            preset: Some(n),
            ..told
        },
        Info::Turn(n) => Told {
            turn: Some(n),
            ..told
        },
        Info::Hands(0) => Told {
            black: counts,
            ..told
        },
        Info::Hands(_) => Told {
            white: counts,
            ..told
        },
        _ => told,
    }
}

// The place of a header line, kept behind the n that are kept; how many are found by now. What does not fit is counted and not kept.
fn keep(info: Info, c: Cursor, n: usize, places: &mut [u16]) -> usize
    requires { n + 1 < 18446744073709551616 }
    ensures value { result ≡ n + length (keyed_place info c.at) }
    ensures places_after { places.new ≡ put places.old n (low16 (keyed_place info c.at)) }
{
    match info {
        Info::Keyed => {
            if n < places.len() {
                places[n] = (c.at % 65536) as u16;
            }
            n + 1
        }
        _ => n,
    }
}

// An information block: what it says, and the places of its header lines.   (the Rust's informations)
pub(crate) fn informations(c: Cursor, s: &[u8], places: &mut [u16]) -> InformationBlock
    ensures value { result ≡ block_at s.now c.at }
    ensures places_after { places.new ≡ put places.old 0 (low16 (header_places_at s.now c.at)) }
{
    let mut told = Told {
        preset: None,
        turn: None,
        black: [0; 7],
        white: [0; 7],
    };
    let mut headers = 0;
    let mut next = c;
    loop {
        let line = hash_lines(next, s);
        let said = information(line, s);
        if !is_line(said.info) {
            return InformationBlock {
                told,
                headers,
                fault: fault(said.info, line),
                next,
            };
        }
        headers = keep(said.info, line, headers, places);
        told = tell(told, said.info, said.counts);
        next = said.next;
    }
}
