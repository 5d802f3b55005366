// The position's 100 bytes, both ways.
ghost use Rattle.std.specs.Prelude.{◌≡◌, ◌≤◌, length, drop};
ghost use Rattle.lent.specs.Bytes.{Wrote, fitting};
ghost use Rattle.lent.specs.Stored.{Stored};
ghost use Rattle.block.specs.PositionBytes.{position_bytes, position_in, bytes_at};

use jkf::Position;
use std::array;

// The bytes of a position, for which there is room.
fn put_parts(out: &mut [u8], p: Position) -> usize
    requires { 100 ≤ length out.old }
    ensures { Wrote (position_bytes p) out.old out.new result }
{
    let cells = p.cells;
    let hands = p.hands;
    let a = lent::put_bytes(out, &[p.preset, p.board, p.turn, 0]);
    let b = a + lent::put_bytes(&mut out[a..], &cells);
    let c = b + lent::put_bytes(&mut out[b..], &hands);
    c + lent::put_bytes(&mut out[c..], &[0])
}

// At the front, where there is room.
fn put_front(out: &mut [u8], p: Position) -> usize
    ensures { Wrote (fitting (position_bytes p) out.old) out.old out.new result }
{
    if out.len() < 100 {
        return 0;
    }
    put_parts(out, p)
}

// A position, stored from a place on; answers the place past it.
pub fn put_position(out: &mut [u8], at: usize, p: Position) -> usize
    ensures { Stored (fitting (position_bytes p) (drop at out.old)) out.old out.new at result }
{
    if out.len() < at {
        return at;
    }
    at + put_front(&mut out[at..], p)
}

fn cells_in(s: &[u8]) -> [u8; 81]
    ensures { result ≡ bytes_at s.now 4 81 }
{
    array::from_fn(|i| lent::peek(s, 4 + i))
}

fn hands_in(s: &[u8]) -> [u8; 14]
    ensures { result ≡ bytes_at s.now 85 14 }
{
    array::from_fn(|i| lent::peek(s, 85 + i))
}

// The position that the bytes from here on say; bytes past the end are 0.
pub fn position_in(s: &[u8]) -> Position
    ensures { result ≡ position_in s.now }
{
    Position {
        preset: lent::peek(s, 0),
        board: lent::peek(s, 1),
        turn: lent::peek(s, 2),
        cells: cells_in(s),
        hands: hands_in(s),
    }
}
