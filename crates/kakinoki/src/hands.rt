// Hand lines.
ghost use Rattle.std.specs.Prelude.{◌≡◌};
ghost use Rattle.kakinoki.specs.Informations.{padded_end_at, piece_at, pieces_at, hand_at, held_at, hand_line_at};

use crate::{Hand, HandSaid, Held, Piece};
use text::Cursor;

// Past padding and a break.
pub(crate) fn padded_end(c: Cursor, s: &[u8]) -> Option<Cursor>
    ensures { result ≡ padded_end_at s.now c.at }
{
    c.padding(s).line_ending(s)
}

// A kind, a count or none for 1, padding.
#[tactic(auto, unfolding(crate::specs::Informations::piece_at))]
fn piece(c: Cursor, s: &[u8]) -> Option<Piece>
    ensures { result ≡ piece_at s.now c.at }
{
    let (kind, past) = spell::kind(c, s)?;
    let (count, end) = spell::count(past, s).unwrap_or((1, past));
    Some(Piece {
        kind,
        count,
        next: end.padding(s),
    })
}

// As many pieces as can be held.
fn pieces(c: Cursor, s: &[u8]) -> Hand
    ensures { result ≡ pieces_at s.now c.at }
{
    let mut counts = [0u8; 7];
    let mut next = c;
    loop {
        let Some(held) = piece(next, s) else {
            return Hand { counts, next };
        };
        if 7 < held.kind {
            return Hand { counts, next };
        }
        let k = lent::wide(held.kind) - 1;
        if 255 - counts[k] < held.count {
            return Hand { counts, next };
        }
        counts[k] += held.count;
        next = held.next;
    }
}

// なし, or pieces.   (the Rust's information_value_hand)
fn hand(c: Cursor, s: &[u8]) -> Hand
    ensures { result ≡ hand_at s.now c.at }
{
    let Some(end) = c.tag(s, b"\xe3\x81\xaa\xe3\x81\x97") else {
        return pieces(c, s);
    };
    Hand {
        counts: [0; 7],
        next: end,
    }
}

// The hand of a side to the end of its line.
fn held(side: u8, c: Cursor, s: &[u8]) -> HandSaid
    ensures { result ≡ held_at side s.now c.at }
{
    let hand = hand(c, s);
    let Some(end) = padded_end(hand.next, s) else {
        return HandSaid {
            held: Held::Unreadable,
            counts: [0; 7],
        };
    };
    let counts = hand.counts;
    HandSaid {
        held: Held::By(side, end),
        counts,
    }
}

// A side, の持駒： and its hand.   (the Rust's information_line_hands)
pub(crate) fn hand_line(c: Cursor, s: &[u8]) -> HandSaid
    ensures { result ≡ hand_line_at s.now c.at }
{
    let none = HandSaid {
        held: Held::NoHand,
        counts: [0; 7],
    };
    let Some((side, past)) = spell::side(c, s) else {
        return none;
    };
    let Some(inside) = past.tag(s, b"\xe3\x81\xae\xe6\x8c\x81\xe9\xa7\x92\xef\xbc\x9a") else {
        return none;
    };
    held(side, inside, s)
}
