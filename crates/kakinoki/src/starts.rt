// What stands before the moves: a block, a board or none, a block.
ghost use Rattle.std.specs.Prelude.{◌≡◌, ◌++◌};
ghost use Rattle.lent.specs.Stored.{put};
ghost use Rattle.lists.specs.Pick.{pick};
ghost use Rattle.kakinoki.specs.Informations.{low16};
ghost use Rattle.kakinoki.specs.Starts.{add_hands, merged, position_said, header_places, start_read};

use crate::boards::board;
use crate::infos::informations;
use crate::{Board, Start, Told};
use jkf::Position;
use text::Cursor;

// Counts added one by one.   (the Rust's merged_hand)
fn add_hands(a: [u8; 7], b: [u8; 7]) -> [u8; 7]
    ensures { result ≡ add_hands a b }
{
    [
        a[0].saturating_add(b[0]),
        a[1].saturating_add(b[1]),
        a[2].saturating_add(b[2]),
        a[3].saturating_add(b[3]),
        a[4].saturating_add(b[4]),
        a[5].saturating_add(b[5]),
        a[6].saturating_add(b[6]),
    ]
}

// What the two blocks say.   (the Rust's merged)
#[tactic(auto, unfolding(crate::specs::Starts::merged))]
fn merged(a: Told, b: Told) -> Told
    ensures { result ≡ merged a b }
{
    Told {
        preset: a.preset.or(b.preset),
        turn: a.turn.or(b.turn),
        black: add_hands(a.black, b.black),
        white: add_hands(a.white, b.white),
    }
}

// Black's hand, then White's.
fn both_hands(a: [u8; 7], b: [u8; 7]) -> [u8; 14]
    ensures { result ≡ a ++ b }
{
    let mut hands = [0; 14];
    hands[..7].copy_from_slice(&a);
    hands[7..].copy_from_slice(&b);
    hands
}

// The position: a diagram with hands and turn, or a preset alone.
#[tactic(auto, unfolding(crate::specs::Starts::position_said))]
fn position(board: Board, told: Told) -> Position
    ensures { result ≡ position_said board told }
{
    let cells = board.cells;
    if board.there {
        return Position {
            preset: 16,
            board: 1,
            turn: told.turn.unwrap_or(0),
            cells,
            hands: both_hands(told.black, told.white),
        };
    }
    Position {
        preset: told.preset.unwrap_or(0),
        board: 0,
        turn: 0,
        cells: [0; 81],
        hands: [0; 14],
    }
}

// The place past a board, if it is there.
fn past_board(board: Board, c: Cursor) -> Cursor
    ensures { result.at ≡ pick board.there board.next.at c.at }
{
    if board.there { board.next } else { c }
}

// Both blocks, the board between them, and the places of the header lines.   (the Rust's parse_without_moves)
pub fn parse_without_moves(s: &[u8], places: &mut [u16]) -> Start
    ensures value { result ≡ start_read s.now }
    ensures places_after { places.new ≡ put places.old 0 (low16 (header_places s.now)) }
{
    let first = informations(Cursor { at: 0 }, s, places);
    let diagram = board(first.next, s);
    let kept = first.headers.min(places.len());
    let second = informations(past_board(diagram, first.next), s, &mut places[kept..]);
    Start {
        fault: second.fault,
        position: position(diagram, merged(first.told, second.told)),
        headers: first.headers + second.headers,
        next: second.next,
    }
}
