// All lines of play of a text, counted: the main line and the variations.
ghost use Rattle.std.specs.Prelude.{◌≡◌, ◌≤◌, length};
ghost use Rattle.parser.specs.inner.Lines.{main_extents, extents_at};

use crate::Extents;
use text::Cursor;

// The main line, counted with its slot.
fn count_main(c: Cursor, s: &[u8]) -> Extents
    requires { c.at ≤ length s.now }
    ensures { result ≡ main_extents s.now c.at }
{
    let slot = plays::count_comments(plays::skipped(c, s), s);
    let line = plays::count_moves(slot.next, s);
    Extents {
        lines: 1,
        entries: 1 + line.entries,
        comments: slot.count + line.comments,
        bytes: slot.bytes + line.bytes,
        next: plays::past(slot.next, line.entries, line.next, s),
    }
}

// All lines, counted.   (the Rust's entire_moves)
pub(crate) fn count_lines(c: Cursor, s: &[u8]) -> Extents
    requires { c.at ≤ length s.now }
    ensures { result ≡ extents_at s.now c.at }
{
    let mut all = count_main(c, s);
    loop {
        let line = plays::count_moves(plays::skips(all.next, s), s);
        if line.entries == 0 {
            return all;
        }
        all = Extents {
            lines: all.lines + 1,
            entries: all.entries + line.entries,
            comments: all.comments + line.comments,
            bytes: all.bytes + line.bytes,
            next: plays::skipped(line.next, s),
        };
    }
}
