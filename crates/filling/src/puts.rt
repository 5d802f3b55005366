// One part more of a block: a header entry, a line, a comment, an entry.
ghost use Rattle.std.specs.Prelude.{◌≡◌, ◌+◌, ◌-◌, ◌≤◌, leb};
ghost use Rattle.filling.specs.Filling.{header, has_header, has_comment, has_entry, entered, put_header, put_line, put_comment, put_entry};

use crate::Walk;
use jkf::Entry;

// Whether n more from a place on come to an end or less: what is left is compared, so that nothing overflows.
fn has_room(at: usize, n: usize, end: usize) -> bool
    ensures { result ≡ leb (at + n) end }
{
    at <= end && n <= end - at
}

// Whether a key and a value of so many bytes have room.
fn has_header(w: Walk, key: usize, value: usize, room: usize) -> bool
    ensures { result ≡ has_header key value w room }
{
    has_room(w.headers, 8, room)
        && has_room(w.text, key, room)
        && has_room(w.text + key, value, room)
        && has_room(w.bytes, key, usize::MAX)
        && has_room(w.bytes + key, value, usize::MAX)
}

// A header entry: its row where the header rows end, its key and its value where the texts end.
pub fn put_header(out: &mut [u8], w: Walk, key: &[u8], value: &[u8]) -> Walk
    ensures value { result ≡ (put_header (header key.now value.now) w out.old).walk }
    ensures out_after { out.new ≡ (put_header (header key.now value.now) w out.old).buffer }
{
    if !has_header(w, key.len(), value.len(), out.len()) {
        return w;
    }
    let middle = w.bytes + key.len();
    let headers = block::put_header_row(out, w.headers, w.bytes, key.len(), middle, value.len());
    let past = lent::put_at(out, w.text, key);
    let text = lent::put_at(out, past, value);
    Walk {
        headers,
        text,
        bytes: middle + value.len(),
        ..w
    }
}

// The row of the line that has the entries from number first on and starts at a ply, where the line rows end.
pub fn put_line(out: &mut [u8], w: Walk, start: u64, parent: u64, first: usize) -> Walk
    ensures value { result ≡ (put_line start parent first w out.old).walk }
    ensures out_after { out.new ≡ (put_line start parent first w out.old).buffer }
{
    if !has_room(w.lines, 8, out.len()) {
        return w;
    }
    let count = w.entries.saturating_sub(first);
    let lines = block::put_line_row(out, w.lines, start, first, count, parent);
    Walk { lines, ..w }
}

// Whether a comment of n bytes has room.
fn has_comment(w: Walk, n: usize, room: usize) -> bool
    ensures { result ≡ has_comment n w room }
{
    has_room(w.comments, 4, room)
        && has_room(w.text, n, room)
        && has_room(w.noted, 1, usize::MAX)
        && has_room(w.bytes, n, usize::MAX)
}

// A comment: its row where the comment rows end, its bytes where the texts end.
pub fn put_comment(out: &mut [u8], w: Walk, c: &[u8]) -> Walk
    ensures value { result ≡ (put_comment c.now w out.old).walk }
    ensures out_after { out.new ≡ (put_comment c.now w out.old).buffer }
{
    let n = c.len();
    if !has_comment(w, n, out.len()) {
        return w;
    }
    let comments = block::put_comment_row(out, w.comments, w.bytes, n);
    let start = w.text;
    let text = start + n;
    lent::put_bytes(&mut out[start..text], c);
    Walk {
        comments,
        text,
        noted: w.noted + 1,
        bytes: w.bytes + n,
        ..w
    }
}

// Whether an entry has room.
fn has_entry(w: Walk, room: usize) -> bool
    ensures { result ≡ has_entry w room }
{
    has_room(w.moves, 20, room) && has_room(w.entries, 1, usize::MAX)
}

// One entry more, and the place past it.
fn entered(w: Walk, moves: usize) -> Walk
    requires { w.entries + 1 ≤ 18446744073709551615 }
    ensures { result ≡ entered w moves }
{
    Walk {
        moves,
        entries: w.entries + 1,
        ..w
    }
}

// The entry that has the comments from number first on, where the entries end; where it has none, that number is 0.
pub fn put_entry(out: &mut [u8], w: Walk, e: Entry, first: usize) -> Walk
    ensures value { result ≡ (put_entry e first w out.old).walk }
    ensures out_after { out.new ≡ (put_entry e first w out.old).buffer }
{
    if !has_entry(w, out.len()) {
        return w;
    }
    let count = w.noted.saturating_sub(first);
    if count == 0 {
        return entered(w, block::put_entry_row(out, w.moves, e, 0, 0));
    }
    entered(w, block::put_entry_row(out, w.moves, e, first, count))
}
