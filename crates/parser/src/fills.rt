// All lines of play of a text, filled in, each variation hung where the attaching rule says.   (the Rust's merge_forks)
ghost use Rattle.std.specs.Prelude.{◌≡◌, [], ◌∷◌};
ghost use Rattle.lent.specs.inner.Regions.{puts};
ghost use Rattle.jkf.specs.Attaching.{all, attach, all_hung};
ghost use Rattle.filling.specs.inner.Parts.{line_texts, line_ends, LinesFit, LineFits, Lined};
ghost use Rattle.plays.specs.Plays.{slot_at, past_main, plays_at};
ghost use Rattle.plays.specs.Losses.{lost_from, plays_lost};
ghost use Rattle.parser.specs.inner.Lines.{main_line, hanging};

use filling::Walk;
use jkf::Entry;
use plays::FilledPlay;
use text::Cursor;

// The main line: the slot with its comments, the moves, and the row, which hangs on nothing.   (the Rust's main_moves)
fn fill_main(s: &[u8], c: Cursor, w: Walk, out: &mut [u8]) -> FilledPlay
    requires { LineFits (main_line s.now c.at) w out.old }
    ensures lined { Lined (main_line s.now c.at ∷ []) w result.walk out.old out.new }
    ensures at_value { result.next.at ≡ past_main s.now (slot_at s.now c.at).at }
    ensures lost_value { result.lost ≡ lost_from s.now (slot_at s.now c.at).at }
{
    let slot = plays::fill_comments(s, plays::skipped(c, s), w, out);
    let u = filling::put_entry(out, slot.walk, Entry::Slot, w.noted);
    let line = plays::fill_moves(s, slot.next, u, out);
    let v = line.walk;
    let next = plays::past(slot.next, v.entries - u.entries, line.next, s);
    let lost = line.lost;
    let Some(walk) = filling::hang_line(out, v, w.lines, 0, w.entries) else {
        return FilledPlay {
            walk: v,
            next,
            lost,
        };
    };
    FilledPlay { walk, next, lost }
}

// All lines, and how many of their times were lost; stops at the first variation that has no entry to hang on.
pub(crate) fn fill_lines(
    s: &[u8],
    c: Cursor,
    w: Walk,
    out: &mut [u8],
) -> Result<(Cursor, usize), (u64, u64)>
    requires { LinesFit (attach (plays_at s.now c.at).state) w out.old }
    ensures value { result ≡ hanging (all_hung (plays_at s.now c.at).state) (plays_at s.now c.at).at (plays_lost s.now c.at) }
    ensures out_after { all_hung (plays_at s.now c.at).state ≡ all → out.new ≡ puts out.old (line_ends w) (line_texts 0 0 w.bytes (attach (plays_at s.now c.at).state)) }
{
    let table = w.lines;
    let main = fill_main(s, c, w, out);
    let mut walk = main.walk;
    let mut next = main.next;
    let mut lost = main.lost;
    let mut k = 1u64;
    loop {
        let at = plays::skips(next, s);
        let line = plays::fill_moves(s, at, walk, out);
        let v = line.walk;
        if v.entries == walk.entries {
            return Ok((next, lost));
        }
        let start = plays::ply(at, s);
        let Some(u) = filling::hang_line(out, v, table, start, walk.entries) else {
            return Err((k, start));
        };
        walk = u;
        next = plays::skipped(line.next, s);
        lost += line.lost;
        k += 1;
    }
}
