// Where play starts.
ghost use Rattle.std.specs.Prelude.{◌≡◌};
ghost use Rattle.positions.specs.Paths.{hirate, no_position, start_on, no_trail, has_start};

use crate::Trail;
use jkf::Position;

// 平手: a row is a file, file 1 first, rank 1 first in it.
#[rattlefmt::skip]
const HIRATE: [u8; 81] = [
    18, 0, 17, 0, 0, 0, 1, 0, 2,
    19, 22, 17, 0, 0, 0, 1, 7, 3,
    20, 0, 17, 0, 0, 0, 1, 0, 4,
    21, 0, 17, 0, 0, 0, 1, 0, 5,
    24, 0, 17, 0, 0, 0, 1, 0, 8,
    21, 0, 17, 0, 0, 0, 1, 0, 5,
    20, 0, 17, 0, 0, 0, 1, 0, 4,
    19, 23, 17, 0, 0, 0, 1, 6, 3,
    18, 0, 17, 0, 0, 0, 1, 0, 2,
];

// 平手, Black to move.
fn hirate() -> Position
    ensures { result ≡ hirate }
{
    Position {
        preset: 16,
        board: 1,
        turn: 0,
        cells: HIRATE,
        hands: [0; 14],
    }
}

// All zero.
pub(crate) fn no_position() -> Position
    ensures { result ≡ no_position }
{
    Position {
        preset: 0,
        board: 0,
        turn: 0,
        cells: [0; 81],
        hands: [0; 14],
    }
}

// Whether play can start: from a diagram, or from 平手.
pub(crate) fn has_start(p: Position) -> bool
    ensures { result ≡ has_start p }
{
    p.board != 0 || p.preset == 0
}

pub(crate) fn start_on(p: Position) -> Position
    ensures { result ≡ start_on p }
{
    if p.board == 0 { hirate() } else { p }
}

// A play before its first move, but for its position.
pub(crate) fn no_trail() -> Trail
    ensures { result ≡ no_trail }
{
    Trail {
        how: None,
        line: 0,
        entry: 0,
        last: 81,
    }
}
