// The diagram.
ghost use Rattle.std.specs.Prelude.{◌≡◌, ◌<◌};
ghost use Rattle.kakinoki.specs.Boards.{no_cells, no_board, white_at, cell_at, cells_from, row_end_at, row_at, rows_from, ruled_at, board_at};

use crate::Board;
use text::Cursor;

fn no_board() -> Board
    ensures { result ≡ no_board }
{
    Board {
        there: false,
        cells: [0; 81],
        next: Cursor { at: 0 },
    }
}

// A piece of White, after its v.
fn white_piece(c: Cursor, s: &[u8]) -> Option<(u8, Cursor)>
    ensures { result ≡ white_at s.now c.at }
{
    let past = c.tag(s, b"v")?;
    let (kind, end) = spell::kind(past, s)?;
    Some((kind + 16, end))
}

// A cell: empty, or a piece of a side.   (the Rust's board_piece)
fn board_piece(c: Cursor, s: &[u8]) -> Option<(u8, Cursor)>
    ensures { result ≡ cell_at s.now c.at }
{
    let Some(end) = c.tag(s, b" \xe3\x83\xbb") else {
        let Some(past) = c.tag(s, b" ") else {
            return white_piece(c, s);
        };
        return spell::kind(past, s);
    };
    Some((0, end))
}

// Nine cells of a rank, from file 9 on.
fn board_cells(c: Cursor, s: &[u8], rank: usize, before: [u8; 81]) -> Board
    requires { rank < 9 }
    ensures { result ≡ cells_from s.now rank 9 c.at before }
{
    let mut cells = before;
    let mut next = c;
    for n in (0..9).rev() {
        let Some((v, past)) = board_piece(next, s) else {
            return no_board();
        };
        cells[9 * n + rank] = v;
        next = past;
    }
    Board {
        there: true,
        cells,
        next,
    }
}

// |, any rank figure, break.
fn row_end(c: Cursor, s: &[u8]) -> Option<Cursor>
    ensures { result ≡ row_end_at s.now c.at }
{
    let past = c.tag(s, b"|")?;
    let Some((_, end)) = spell::numeral(past, s) else {
        return None;
    };
    end.line_ending(s)
}

// A row of nine cells.   (the Rust's board_row)
fn board_row(c: Cursor, s: &[u8], rank: usize, before: [u8; 81]) -> Board
    requires { rank < 9 }
    ensures { result ≡ row_at s.now rank c.at before }
{
    let Some(inside) = c.tag(s, b"|") else {
        return no_board();
    };
    let row = board_cells(inside, s, rank, before);
    if !row.there {
        return no_board();
    }
    let Some(end) = row_end(row.next, s) else {
        return no_board();
    };
    Board { next: end, ..row }
}

// Nine rows.
fn board_rows(c: Cursor, s: &[u8]) -> Board
    ensures { result ≡ rows_from s.now 0 9 c.at no_cells }
{
    let mut cells = [0u8; 81];
    let mut next = c;
    for rank in 0..9 {
        let row = board_row(next, s, rank, cells);
        if !row.there {
            return no_board();
        }
        cells = row.cells;
        next = row.next;
    }
    Board {
        there: true,
        cells,
        next,
    }
}

// A head or foot line.
fn ruled(c: Cursor, s: &[u8], t: &[u8]) -> Option<Cursor>
    ensures { result ≡ ruled_at t.now s.now c.at }
{
    let end = c.tag(s, t)?;
    end.line_ending(s)
}

// Both head lines, nine rows, the foot line.   (the Rust's board)
pub(crate) fn board(c: Cursor, s: &[u8]) -> Board
    ensures { result ≡ board_at s.now c.at }
{
    let Some(files) = ruled(
        c,
        s,
        b"  \xef\xbc\x99 \xef\xbc\x98 \xef\xbc\x97 \xef\xbc\x96 \xef\xbc\x95 \xef\xbc\x94 \xef\xbc\x93 \xef\xbc\x92 \xef\xbc\x91",
    ) else {
        return no_board();
    };
    let Some(head) = ruled(files, s, b"+---------------------------+") else {
        return no_board();
    };
    let rows = board_rows(head, s);
    if !rows.there {
        return no_board();
    }
    let Some(end) = ruled(rows.next, s, b"+---------------------------+") else {
        return no_board();
    };
    Board { next: end, ..rows }
}
