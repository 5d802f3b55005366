// Whether a move line is read so: found, the number, the place after and the entry's bytes.
use crate::request::{is, number};
use jkf::Entry;
use text::Cursor;

fn is_line(answer: &[u8], ply: u64, after: u64, e: Entry) -> bool {
    let mut row = [0u8; 20];
    block::put_entry_row(&mut row, 0, e, 0, 0);
    is(answer, &[1, ply, after], &row)
}

// A move line at a place of a text.
pub(crate) fn move_line(request: &[u8], answer: &[u8]) -> bool {
    let c = Cursor {
        at: number(request, 0) as usize,
    };
    match moves::move_line(c, lent::rest(request, 8)) {
        Some(line) => is_line(answer, line.number, line.next.at as u64, line.entry),
        None => is(answer, &[0, 0, 0], b""),
    }
}
