// The header and the position as they are written.   (the Rust's src/converter/kakinoki.rs)
ghost use Rattle.std.specs.Prelude.{[], ◌∷◌, ◌++◌, ◌+◌, ◌-◌, ◌≤◌, ◌<◌, length, ltb};
ghost use Rattle.lists.specs.Pick.{pick};
ghost use Rattle.lent.specs.Bytes.{Wrote};
ghost use Rattle.spell.specs.Tables.{kinds, numerals};
ghost use Rattle.spell.specs.Spell.{spelled};
ghost use Rattle.spell.specs.Count.{count_text};
ghost use Rattle.block.specs.Encode.{concat};
ghost use Rattle.converter.specs.Headers.{header_line, lines_of, headers_text, range};
ghost use Rattle.converter.specs.inner.Places.{stored_headers, Placed};
ghost use Rattle.converter.specs.Diagrams.{preset_line, held_text, all_held, or_none, hand_line_text, cell_text, cells_text, board_row, board_rows, board_text, turn_text, diagram_text, position_text};

use crate::keys::leading_number;
use block::SoundBlock;
use jkf::Position;

// The line of a header entry.
fn put_header(out: &mut [u8], key: &[u8], value: &[u8]) -> usize
    requires { length (header_line (record { key = key.now; value = value.now })) ≤ length out.old }
    ensures { Wrote (header_line (record { key = key.entry.now; value = value.now })) out.old out.new result }
{
    let n = lent::put_bytes(out, key);
    let m = lent::put_at(out, n, b"\xef\xbc\x9a");
    let e = lent::put_at(out, m, value);
    lent::put_at(out, e, b"\n")
}

// Where the leading keys stand: one more than the header entry's number, 0 for none.
fn leading_places(b: SoundBlock) -> [u16; 12]
    ensures { Placed b.entry.bytes.now result }
{
    let count = block::headers_in(b.bytes);
    let texts = block::texts_of(b.bytes);
    let mut places = [0u16; 12];
    for k in 0..count {
        let n = lent::wide(leading_number(block::key_in(b.bytes, texts, k as u16)));
        if 0 < n {
            places[n - 1] = (k + 1) as u16;
        }
    }
    places
}

// The header entries with leading keys, in the order of these.
fn put_leading(out: &mut [u8], b: &[u8], places: &[u16]) -> usize
    requires { Placed b.now places.now × (length (concat (λ n. lines_of n (stored_headers b.now)) (range 1 12)) ≤ length out.old) }
    ensures { Wrote (concat (λ n. lines_of n (stored_headers b.now)) (range 1 12)) out.old out.new result }
{
    let texts = block::texts_of(b);
    let mut at = 0;
    for &place in places {
        if 0 < place {
            let i = place - 1;
            at += put_header(
                &mut out[at..],
                block::key_in(b, texts, i),
                block::value_in(b, texts, i),
            );
        }
    }
    at
}

// The others, in their own order.
fn put_others(out: &mut [u8], b: &[u8]) -> usize
    requires { length (lines_of 0 (stored_headers b.now)) ≤ length out.old }
    ensures { Wrote (lines_of 0 (stored_headers b.now)) out.old out.new result }
{
    let count = block::headers_in(b);
    let texts = block::texts_of(b);
    let mut at = 0;
    for k in 0..count {
        let i = k as u16;
        let key = block::key_in(b, texts, i);
        if leading_number(key) == 0 {
            at += put_header(&mut out[at..], key, block::value_in(b, texts, i));
        }
    }
    at
}

// The header.   (the Rust's write_header)
pub(crate) fn put_headers(out: &mut [u8], b: SoundBlock) -> usize
    requires { length (headers_text (stored_headers b.bytes.now)) ≤ length out.old }
    ensures { Wrote (headers_text (stored_headers b.entry.bytes.now)) out.old out.new result }
{
    let places = leading_places(b);
    let n = put_leading(out, b.bytes, &places);
    n + put_others(&mut out[n..], b.bytes)
}

// A preset.   (the Rust's write_initial_preset)
fn put_preset_line(out: &mut [u8], preset: u8) -> usize
    requires { length (preset_line preset) ≤ length out.old }
    ensures { Wrote (preset_line preset) out.old out.new result }
{
    let n = lent::put_bytes(out, b"\xe6\x89\x8b\xe5\x90\x88\xe5\x89\xb2\xef\xbc\x9a");
    let m = n + spell::put_preset(&mut out[n..], preset);
    lent::put_at(out, m, b"\n")
}

// A count above 1.
fn put_more(out: &mut [u8], count: u8) -> usize
    requires { length (pick (ltb 1 count) (count_text count) []) ≤ length out.old }
    ensures { Wrote (pick (ltb 1 count) (count_text count) []) out.old out.new result }
{
    if 1 < count {
        return spell::put_count(out, count);
    }
    0
}

// A kind in hand.
fn put_held(out: &mut [u8], kind: u8, count: u8) -> usize
    requires { length (held_text kind count) ≤ length out.old }
    ensures { Wrote (held_text kind count) out.old out.new result }
{
    if count == 0 {
        return 0;
    }
    let n = spell::put_board_kind(out, kind);
    let m = n + put_more(&mut out[n..], count);
    lent::put_at(out, m, b"\xe3\x80\x80")
}

// What a side holds.   (the Rust's write_hand)
fn put_all_held(out: &mut [u8], hands: &[u8], side: usize) -> usize
    requires { (side ≤ 1) × (length (all_held hands.now side) ≤ length out.old) }
    ensures { Wrote (all_held hands.now side) out.old out.new result }
{
    let mut at = 0;
    for kind in (1..8).rev() {
        let count = lent::peek(hands, 7 * side + kind - 1);
        at += put_held(&mut out[at..], kind as u8, count);
    }
    at
}

// All that a side holds, or that it holds nothing.
fn put_hand(out: &mut [u8], hands: &[u8], side: usize) -> usize
    requires { (side ≤ 1) × (length (or_none (all_held hands.now side)) ≤ length out.old) }
    ensures { Wrote (or_none (all_held hands.now side)) out.old out.new result }
{
    let n = put_all_held(out, hands, side);
    if n == 0 {
        return lent::put_bytes(out, b"\xe3\x81\xaa\xe3\x81\x97");
    }
    n
}

// The line of a side's hand.
fn put_hand_line(out: &mut [u8], hands: &[u8], side: usize) -> usize
    requires { (side ≤ 1) × (length (hand_line_text hands.now side) ≤ length out.old) }
    ensures { Wrote (hand_line_text hands.now side) out.old out.new result }
{
    let n = spell::put_side(out, side as u8);
    let m = lent::put_at(out, n, b"\xe3\x81\xae\xe6\x8c\x81\xe9\xa7\x92\xef\xbc\x9a");
    let e = m + put_hand(&mut out[m..], hands, side);
    lent::put_at(out, e, b"\n")
}

// A piece after a space or v.
fn put_piece(out: &mut [u8], before: u8, kind: u8) -> usize
    requires { length ((before ∷ []) ++ spelled kinds kind) ≤ length out.old }
    ensures { Wrote ((before ∷ []) ++ spelled kinds kind) out.old out.new result }
{
    let n = lent::put_bytes(out, &[before]);
    n + spell::put_board_kind(&mut out[n..], kind)
}

// A cell of the diagram.
fn put_cell(out: &mut [u8], v: u8) -> usize
    requires { length (cell_text v) ≤ length out.old }
    ensures { Wrote (cell_text v) out.old out.new result }
{
    match v {
        0 => lent::put_bytes(out, b" \xe3\x83\xbb"),
        1..=14 => put_piece(out, b' ', v),
        _ => put_piece(out, b'v', v.saturating_sub(16)),
    }
}

// The cells of a rank, file 9 first.
fn put_cells(out: &mut [u8], cells: &[u8], rank: usize) -> usize
    requires { (rank < 9) × (length (cells_text cells.now rank) ≤ length out.old) }
    ensures { Wrote (cells_text cells.now rank) out.old out.new result }
{
    let mut at = 0;
    for file in (0..9).rev() {
        at += put_cell(&mut out[at..], lent::peek(cells, 9 * file + rank));
    }
    at
}

// What ends a row.
fn put_row_end(out: &mut [u8], rank: usize) -> usize
    requires { (rank < 9) × (length (((124 ∷ []) ++ spelled numerals (rank + 1)) ++ (10 ∷ [])) ≤ length out.old) }
    ensures { Wrote (((124 ∷ []) ++ spelled numerals (rank + 1)) ++ (10 ∷ [])) out.old out.new result }
{
    let n = lent::put_bytes(out, b"|");
    let m = n + spell::put_numeral(&mut out[n..], (rank + 1) as u8);
    lent::put_at(out, m, b"\n")
}

// A row of the diagram.
fn put_row(out: &mut [u8], cells: &[u8], rank: usize) -> usize
    requires { (rank < 9) × (length (board_row cells.now rank) ≤ length out.old) }
    ensures { Wrote (board_row cells.now rank) out.old out.new result }
{
    let n = lent::put_bytes(out, b"|");
    let m = n + put_cells(&mut out[n..], cells, rank);
    m + put_row_end(&mut out[m..], rank)
}

fn put_rows(out: &mut [u8], cells: &[u8]) -> usize
    requires { length (board_rows cells.now) ≤ length out.old }
    ensures { Wrote (board_rows cells.now) out.old out.new result }
{
    let mut at = 0;
    for rank in 0..9 {
        at += put_row(&mut out[at..], cells, rank);
    }
    at
}

// The board between its head lines and its foot line.
fn put_board(out: &mut [u8], cells: &[u8]) -> usize
    requires { length (board_text cells.now) ≤ length out.old }
    ensures { Wrote (board_text cells.now) out.old out.new result }
{
    let n = lent::put_bytes(
        out,
        b"  \xef\xbc\x99 \xef\xbc\x98 \xef\xbc\x97 \xef\xbc\x96 \xef\xbc\x95 \xef\xbc\x94 \xef\xbc\x93 \xef\xbc\x92 \xef\xbc\x91\n+---------------------------+\n",
    );
    let m = n + put_rows(&mut out[n..], cells);
    lent::put_at(out, m, b"+---------------------------+\n")
}

// White to move; nothing where Black is.
fn put_turn(out: &mut [u8], turn: u8) -> usize
    requires { length (turn_text turn) ≤ length out.old }
    ensures { Wrote (turn_text turn) out.old out.new result }
{
    if turn != 1 {
        return 0;
    }
    let n = spell::put_side(out, 1);
    lent::put_at(out, n, b"\xe7\x95\xaa\n")
}

// White's hand and the board.
fn put_upper(out: &mut [u8], p: Position) -> usize
    requires { length ((preset_line 16 ++ hand_line_text p.hands 1) ++ board_text p.cells) ≤ length out.old }
    ensures { Wrote ((preset_line 16 ++ hand_line_text p.hands 1) ++ board_text p.cells) out.old out.new result }
{
    let n = put_preset_line(out, 16);
    let m = n + put_hand_line(&mut out[n..], &p.hands, 1);
    m + put_board(&mut out[m..], &p.cells)
}

// The diagram.   (the Rust's write_initial_data)
fn put_diagram(out: &mut [u8], p: Position) -> usize
    requires { length (diagram_text p) ≤ length out.old }
    ensures { Wrote (diagram_text p) out.old out.new result }
{
    let n = put_upper(out, p);
    let m = n + put_hand_line(&mut out[n..], &p.hands, 0);
    m + put_turn(&mut out[m..], p.turn)
}

// The position.   (the Rust's write_initial)
pub(crate) fn put_position(out: &mut [u8], p: Position) -> usize
    requires { length (position_text p) ≤ length out.old }
    ensures { Wrote (position_text p) out.old out.new result }
{
    if p.board == 0 {
        return put_preset_line(out, p.preset);
    }
    put_diagram(out, p)
}
