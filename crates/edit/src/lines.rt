// Lines put into a block one after another: the entries of a line, and then its row.
ghost use Rattle.std.specs.Prelude.{◌≡◌, List, [], map, ℕ, ◌+◌, ◌≤◌, ◌<◌};
ghost use Rattle.block.specs.Decode.{run, lines_in, line_in};
ghost use Rattle.filling.specs.inner.Parts.{sizes_of};
ghost use Rattle.plays.specs.Plays.{ply_at};
ghost use Rattle.edit.specs.Edit.{reparented, variation_of, line_on};
ghost use Rattle.edit.specs.inner.Splicing.{new_lines, Counted, shifted, lines_after, put_whole, put_wholes};

use crate::Added;
use crate::copies::copy_entries;
use block::SoundBlock;
use filling::{Sizes, Walk};
use text::Cursor;

// Where lines change: those from p to q - 1 give way to new ones.
#[derive(Clone, Copy)]
pub(crate) struct Splice {
    pub p: usize,
    pub q: usize,
    pub added: usize,
}

// A line's number after that.
fn shifted(x: Splice, i: usize) -> usize
    requires { (x.p ≤ x.q) × (x.added ≤ 1) × (i < 65536) }
    ensures { (result ≡ shifted x.p x.q x.added i) × (result ≤ 65536) }
{
    if i < x.p {
        return i;
    }
    let removed = x.q - x.p;
    if i + x.added < removed {
        return 0;
    }
    i + x.added - removed
}

// Line i of a block, on its old parent.
fn copy_line(b: SoundBlock, i: usize, x: Splice, w: Walk, out: &mut [u8]) -> Walk
    requires { (i < lines_in b.bytes.now) × (x.p ≤ x.q) × (x.added ≤ 1) }
    ensures value { result ≡ (put_whole (reparented (shifted x.p x.q x.added) (line_in b.entry.bytes.now i)) w out.old).walk }
    ensures out_after { out.new ≡ (put_whole (reparented (shifted x.p x.q x.added) (line_in b.entry.bytes.now i)) w out.old).buffer }
{
    let line = i as u16;
    let first = block::first_entry(b.bytes, line);
    let v = copy_entries(b, first, block::entry_count(b.bytes, line), w, out);
    let start = block::start_of(b.bytes, line) as u64;
    let parent = shifted(x, block::parent_of(b.bytes, line));
    filling::put_line(out, v, start, parent as u64, w.entries)
}

// So many lines of a block from line i on.
fn copy_lines(b: SoundBlock, i: usize, count: usize, x: Splice, w: Walk, out: &mut [u8]) -> Walk
    requires { (i + count ≤ lines_in b.bytes.now) × (x.p ≤ x.q) × (x.added ≤ 1) }
    ensures value { result ≡ (put_wholes (map (reparented (shifted x.p x.q x.added)) (run (line_in b.entry.bytes.now) i count)) w out.old).walk }
    ensures out_after { out.new ≡ (put_wholes (map (reparented (shifted x.p x.q x.added)) (run (line_in b.entry.bytes.now) i count)) w out.old).buffer }
{
    let mut v = w;
    for k in 0..count {
        v = copy_line(b, i + k, x, v, out);
    }
    v
}

// The line of a text that starts at a ply, on line k.
fn put_variation(t: &[u8], k: u64, ply: u64, w: Walk, out: &mut [u8]) -> Walk
    requires { ply ≡ ply_at t.now 0 }
    ensures value { result ≡ (put_whole (line_on k (variation_of t.now)) w out.old).walk }
    ensures out_after { out.new ≡ (put_whole (line_on k (variation_of t.now)) w out.old).buffer }
{
    let own = plays::fill_moves(t, Cursor { at: 0 }, w, out);
    filling::put_line(out, own.walk, ply, k, w.entries)
}

// The new lines.
fn put_added(t: &[u8], a: Option<Added>, w: Walk, out: &mut [u8]) -> Walk
    requires { Counted a t.now }
    ensures value { result ≡ (put_wholes (new_lines a t.now) w out.old).walk }
    ensures out_after { out.new ≡ (put_wholes (new_lines a t.now) w out.old).buffer }
{
    match a {
        None => w,
        Some(x) => put_variation(t, x.line, x.ply, w, out),
    }
}

// How large the new lines are.
pub(crate) fn sizes_added(a: Option<Added>) -> Sizes
    ensures { (result.lines ≤ 1) × ((t : List ℕ) → Counted a t → result ≡ sizes_of [] (new_lines a t)) }
{
    match a {
        None => Sizes {
            headers: 0,
            lines: 0,
            entries: 0,
            comments: 0,
            bytes: 0,
        },
        Some(x) => Sizes {
            headers: 0,
            lines: 1,
            entries: x.extent.entries,
            comments: x.extent.comments,
            bytes: x.extent.bytes,
        },
    }
}

// All lines of an edited block: those before line p, the new ones, and those from line q on.
pub(crate) fn put_lines(
    b: SoundBlock,
    p: usize,
    q: usize,
    t: &[u8],
    a: Option<Added>,
    w: Walk,
    out: &mut [u8],
)
    requires { (p ≤ q) × (q ≤ lines_in b.bytes.now) × Counted a t.now }
    ensures { out.new ≡ (put_wholes (lines_after b.entry.bytes.now p q (new_lines a t.now)) w out.old).buffer }
{
    let x = Splice {
        p,
        q,
        added: sizes_added(a).lines,
    };
    let v = copy_lines(b, 0, p, x, w, out);
    let u = put_added(t, a, v, out);
    copy_lines(b, q, block::lines_in(b.bytes) - q, x, u, out);
}
