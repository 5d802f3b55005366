// Putting a variation into a block, cutting one out with all that hangs from it, and restating a block as version 2.
#![tactic(auto)]

mod checks;
mod copies;
mod lines;
mod stores;

ghost use Rattle.std.specs.Prelude.{◌≡◌, true, ◌<◌};
ghost use Rattle.block.specs.Decode.{lines_in, decode};
ghost use Rattle.plays.specs.Plays.{ply_at};
ghost use Rattle.plays.specs.Counted.{extent_at};
ghost use Rattle.edit.specs.Edit.{is_variation, variation_of, insert_on, insert, remove};
ghost use Rattle.edit.specs.Outcomes.{edited_of, put_in_of, cut_of, restate_of};

use block::SoundBlock;
use checks::{is_ply_of, is_taken, is_variation, place_of, removed_from};
use jkf::Answer;
use plays::Extent;
use stores::store;
use text::Cursor;

// The line that an edit puts in, which a text says: the line that it hangs on, its ply, and what was counted of it.
#[derive(Clone, Copy)]
pub(crate) struct Added {
    pub line: u64,
    pub ply: u64,
    pub extent: Extent,
}

// Comments: how many, and how many bytes they have.
#[derive(Clone, Copy)]
pub(crate) struct Comments {
    pub count: usize,
    pub bytes: usize,
}

// On line k, where its ply j is.
fn insert_on(b: SoundBlock, k: usize, t: &[u8], j: u64, x: Extent, out: &mut [u8]) -> Answer
    requires { (k < lines_in b.bytes.now) × (is_variation t.now ≡ true) × (j ≡ ply_at t.now 0) × (x ≡ extent_at t.now 0) }
    ensures value { result ≡ (edited_of (insert_on (decode b.entry.bytes.now) k (variation_of t.now)) out.old).answer }
    ensures out_after { out.new ≡ (edited_of (insert_on (decode b.entry.bytes.now) k (variation_of t.now)) out.old).buffer }
{
    if !is_ply_of(b.bytes, k, j) {
        return Answer::OutsideLine(k as u64, j);
    }
    if is_taken(b, k, j) {
        return Answer::EntryTaken(k as u64, j);
    }
    let n = place_of(b.bytes, k, j);
    let version = block::version_in(b.bytes) as u16;
    store(
        b,
        version,
        n,
        n,
        t,
        Some(Added {
            line: k as u64,
            ply: j,
            extent: x,
        }),
        n as u64,
        out,
    )
}

// Into a sound block.
fn insert(b: SoundBlock, line: u64, t: &[u8], out: &mut [u8]) -> Answer
    ensures value { result ≡ (edited_of (insert (decode b.entry.bytes.now) line t.now) out.old).answer }
    ensures out_after { out.new ≡ (edited_of (insert (decode b.entry.bytes.now) line t.now) out.old).buffer }
{
    if block::lines_in(b.bytes) as u64 <= line {
        return Answer::NoSuchPart(line);
    }
    let start = Cursor { at: 0 };
    let j = plays::ply(start, t);
    let x = plays::count_sequence(start, t, j);
    if !is_variation(t, x.entries, x.next.at) {
        return Answer::NotOneVariation;
    }
    insert_on(b, line as usize, t, j, x, out)
}

// Puts one variation into a block: the block that its version's rule makes afresh goes into the front of a lent buffer.
pub fn put_in(block: &[u8], line: u64, text: &[u8], out: &mut [u8]) -> Answer
    ensures value { result ≡ (put_in_of block.now line text.now out.old).answer }
    ensures out_after { out.new ≡ (put_in_of block.now line text.now out.old).buffer }
{
    let Some(b) = SoundBlock::of(block) else {
        return Answer::NotSound;
    };
    insert(b, line, text, out)
}

// Line k out of a sound block, with all that goes with it.
fn remove(b: SoundBlock, line: u64, out: &mut [u8]) -> Answer
    ensures value { result ≡ (edited_of (remove (decode b.entry.bytes.now) line) out.old).answer }
    ensures out_after { out.new ≡ (edited_of (remove (decode b.entry.bytes.now) line) out.old).buffer }
{
    if line == 0 || block::lines_in(b.bytes) as u64 <= line {
        return Answer::NoSuchPart(line);
    }
    let k = line as usize;
    let n = removed_from(b, k);
    let version = block::version_in(b.bytes) as u16;
    store(b, version, k, k + n, b"", None, n as u64, out)
}

// Cuts a line out of a block, with the unbroken run of lines after it that hang from it.
pub fn cut(block: &[u8], line: u64, out: &mut [u8]) -> Answer
    ensures value { result ≡ (cut_of block.now line out.old).answer }
    ensures out_after { out.new ≡ (cut_of block.now line out.old).buffer }
{
    let Some(b) = SoundBlock::of(block) else {
        return Answer::NotSound;
    };
    remove(b, line, out)
}

// Restates a sound block of version 1 as version 2, in which an entry may have several variations.
pub fn restate(block: &[u8], out: &mut [u8]) -> Answer
    ensures value { result ≡ (restate_of block.now out.old).answer }
    ensures out_after { out.new ≡ (restate_of block.now out.old).buffer }
{
    let Some(b) = SoundBlock::of(block) else {
        return Answer::NotSound;
    };
    if block::version_in(block) != 1 {
        return Answer::NotSound;
    }
    let n = block::lines_in(block);
    store(b, 2, n, n, b"", None, 0, out)
}
