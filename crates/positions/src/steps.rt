// One step of play. Every function is total: a place past the board or the hands reads 0 and is not written.
ghost use Rattle.std.specs.Prelude.{◌≡◌, ◌≤◌, set};
ghost use Rattle.positions.specs.Steps.{cell_place, landing, leaving, missing, for_white, owned, class, promoted, piece_of, becomes, is_there, land_verdict, move_verdict, in_hand, drop_verdict, verdict_of, one_more, one_less, hand_place, moved, dropped, other, played, stepped};

use crate::{Hindrance, Stepping};
use jkf::{Move, Position, Target};

// The place of a file and a rank; 81 off the board.
#[tactic(auto, unfolding(crate::specs::Steps::cell_place))]
fn cell_place(x: u8, y: u8) -> usize
    ensures { result ≡ cell_place x y }
{
    if !(1..=9).contains(&x) || !(1..=9).contains(&y) {
        return 81;
    }
    9 * (lent::wide(x) - 1) + (lent::wide(y) - 1)
}

// Where a move lands; 81 for nowhere.
fn landing(last: usize, to: Target) -> usize
    ensures { result ≡ landing last to }
{
    match to {
        Target::Same => last,
        Target::Square(x, y) => cell_place(x, y),
    }
}

// Where it comes from: a place, 81 off the board, 82 from the hand.
#[tactic(auto, unfolding(crate::specs::Steps::leaving))]
fn leaving(from: Option<(u8, u8)>) -> usize
    ensures { result ≡ leaving from }
{
    match from {
        None | Some((0, 0)) => 82,
        Some((x, y)) => cell_place(x, y),
    }
}

// Why it lands nowhere.
fn missing(to: Target) -> Hindrance
    ensures { result ≡ missing to }
{
    match to {
        Target::Same => Hindrance::NoneBefore,
        Target::Square(_, _) => Hindrance::OffBoard,
    }
}

// 0 for Black, n for White.
fn for_white(turn: u8, n: usize) -> usize
    ensures { (result ≡ for_white turn n) × (result ≤ n) }
{
    if turn == 0 { 0 } else { n }
}

// Whether a cell holds a piece of the side to move.
#[tactic(auto, unfolding(crate::specs::Steps::owned))]
fn owned(turn: u8, c: u8) -> bool
    ensures { result ≡ owned turn c }
{
    if turn == 0 {
        (1..16).contains(&c)
    } else {
        16 <= c
    }
}

// The kind as it is held, from 0; 7 for a king, 8 for none.
fn class(k: u8) -> u8
    ensures { result ≡ class k }
{
    lent::peek(
        &[8, 0, 1, 2, 3, 4, 5, 6, 7, 0, 1, 2, 3, 5, 6],
        lent::wide(k),
    )
}

// The kind that it promotes to; 0 for none.
fn promoted(k: u8) -> u8
    ensures { result ≡ promoted k }
{
    lent::peek(&[0, 9, 10, 11, 12, 0, 13, 14], lent::wide(k))
}

// The place of a cell's kind in the hands.
fn hand_place(turn: u8, k: u8) -> usize
    ensures { result ≡ hand_place turn k }
{
    for_white(turn, 7) + lent::wide(class(k))
}

// A piece of the side to move.
fn piece_of(turn: u8, k: u8) -> u8
    ensures { result ≡ piece_of turn k }
{
    if turn == 0 { k % 16 } else { 16 + k % 16 }
}

fn becomes(k: u8, mark: u8) -> u8
    ensures { result ≡ becomes k mark }
{
    if mark == 2 { promoted(k) } else { k }
}

// Whether the piece is where the move says.
fn is_there(cells: &[u8], turn: u8, o: usize, k: u8) -> bool
    ensures { result ≡ is_there cells.now turn o k }
{
    let c = lent::peek(cells, o);
    owned(turn, c) && c % 16 == k
}

// Whether it may land there, and what it takes may be held.
fn land_verdict(cells: &[u8], hands: &[u8], turn: u8, d: usize) -> Option<Hindrance>
    ensures { result ≡ land_verdict cells.now hands.now turn d }
{
    let c = lent::peek(cells, d);
    if c == 0 {
        return None;
    }
    if owned(turn, c) {
        return Some(Hindrance::OwnPiece);
    }
    if c % 16 == 8 {
        return Some(Hindrance::King);
    }
    if 254 < lent::peek(hands, hand_place(turn, c % 16)) {
        return Some(Hindrance::HandFull);
    }
    None
}

fn move_verdict(
    cells: &[u8],
    hands: &[u8],
    turn: u8,
    o: usize,
    d: usize,
    k: u8,
    mark: u8,
) -> Option<Hindrance>
    ensures { result ≡ move_verdict cells.now hands.now turn o d k mark }
{
    if 81 <= o {
        return Some(Hindrance::OffBoard);
    }
    if !is_there(cells, turn, o, k) {
        return Some(Hindrance::NotThere);
    }
    if becomes(k, mark) == 0 {
        return Some(Hindrance::NoPromotion);
    }
    land_verdict(cells, hands, turn, d)
}

#[tactic(auto, unfolding(crate::specs::Steps::in_hand))]
fn in_hand(hands: &[u8], turn: u8, k: u8) -> bool
    ensures { result ≡ in_hand hands.now turn k }
{
    (1..=7).contains(&k) && 0 < lent::peek(hands, hand_place(turn, k))
}

fn drop_verdict(
    cells: &[u8],
    hands: &[u8],
    turn: u8,
    d: usize,
    k: u8,
    mark: u8,
) -> Option<Hindrance>
    ensures { result ≡ drop_verdict cells.now hands.now turn d k mark }
{
    if mark == 2 {
        return Some(Hindrance::NoPromotion);
    }
    if !in_hand(hands, turn, k) {
        return Some(Hindrance::NotInHand);
    }
    if lent::peek(cells, d) != 0 {
        return Some(Hindrance::OntoPiece);
    }
    None
}

// Whether the move can be played.
fn verdict_of(p: Position, last: usize, m: Move) -> Option<Hindrance>
    ensures { result ≡ verdict_of p last m }
{
    let cells = p.cells;
    let hands = p.hands;
    let d = landing(last, m.to);
    if 81 <= d {
        return Some(missing(m.to));
    }
    let o = leaving(m.from);
    if o == 82 {
        return drop_verdict(&cells, &hands, p.turn, d, m.piece, m.promote);
    }
    move_verdict(&cells, &hands, p.turn, o, d, m.piece, m.promote)
}

// An array with one of its numbers changed; past its end none is.
fn with_number<const N: usize>(before: [u8; N], i: usize, v: u8) -> [u8; N]
    ensures { result ≡ set before.entry i v }
{
    let mut after = before;
    if i < N {
        after[i] = v;
    }
    after
}

// One more in hand.
fn one_more(hands: [u8; 14], i: usize) -> [u8; 14]
    ensures { result ≡ one_more hands i }
{
    let n = lent::peek(&hands, i);
    if 254 < n {
        return hands;
    }
    with_number(hands, i, n + 1)
}

// One less.
fn one_less(hands: [u8; 14], i: usize) -> [u8; 14]
    ensures { result ≡ one_less hands i }
{
    let n = lent::peek(&hands, i);
    if n < 1 {
        return hands;
    }
    with_number(hands, i, n - 1)
}

// The position after a move on the board.
fn moved(p: Position, o: usize, d: usize, k: u8, mark: u8) -> Position
    ensures { result ≡ moved p o d k mark }
{
    let cells = p.cells;
    let hands = p.hands;
    let c = lent::peek(&cells, d);
    let v = piece_of(p.turn, becomes(k, mark));
    let landed = with_number(with_number(cells, o, 0), d, v);
    let held = if c == 0 {
        hands
    } else {
        one_more(hands, hand_place(p.turn, c % 16))
    };
    Position {
        turn: other(p.turn),
        cells: landed,
        hands: held,
        ..p
    }
}

fn other(turn: u8) -> u8
    ensures { result ≡ other turn }
{
    if turn == 0 { 1 } else { 0 }
}

// After a drop.
fn dropped(p: Position, d: usize, k: u8) -> Position
    ensures { result ≡ dropped p d k }
{
    let cells = p.cells;
    let hands = p.hands;
    Position {
        turn: other(p.turn),
        cells: with_number(cells, d, piece_of(p.turn, k)),
        hands: one_less(hands, hand_place(p.turn, k)),
        ..p
    }
}

// After a move that can be played.
fn played(p: Position, last: usize, m: Move) -> Position
    ensures { result ≡ played p last m }
{
    let d = landing(last, m.to);
    let o = leaving(m.from);
    if o == 82 {
        return dropped(p, d, m.piece);
    }
    moved(p, o, d, m.piece, m.promote)
}

// One step of play: the position after the move, or the same with what stops it.
#[tactic(auto, unfolding(crate::specs::Steps::stepped))]
pub fn play_step(p: Position, last: usize, m: Move) -> Stepping
    ensures { result ≡ stepped p last m }
{
    let how = verdict_of(p, last, m);
    if how.is_some() {
        return Stepping {
            how,
            last,
            position: p,
        };
    }
    Stepping {
        how,
        last: landing(last, m.to),
        position: played(p, last, m),
    }
}
