// What stands in the way of putting a variation in, and where lines stand after an edit.
ghost use Rattle.std.specs.Prelude.{◌≡◌, ◌+◌, ◌≤◌, ◌<◌, length, drop, eqb, false};
ghost use Rattle.jkf.specs.Attaching.{starts, counts};
ghost use Rattle.lists.specs.Pick.{pick};
ghost use Rattle.block.specs.Decode.{version_in, lines_in, start_of, parent_of, decode};
ghost use Rattle.edit.specs.Edit.{plays_in, is_variation, is_ply_of, carries, is_taken, place_of, removed_from};
ghost use Rattle.edit.specs.inner.Splicing.{numbered_in};

use block::SoundBlock;

// Whether a text is one variation, of which so many entries, numbered one by one, were counted up to this end.
pub(crate) fn is_variation(t: &[u8], entries: usize, end: usize) -> bool
    requires { (entries ≡ length (numbered_in t.now).state) × (end ≡ (numbered_in t.now).at) }
    ensures { result ≡ is_variation t.now }
{
    t.len() <= 65535 && entries != 0 && end == t.len() && text::well_formed(t) == t.len()
}

// Whether a ply is one of line k's, and not 0.
pub(crate) fn is_ply_of(b: &[u8], k: usize, j: u64) -> bool
    requires { k < lines_in b.now }
    ensures { result ≡ is_ply_of (starts (plays_in (decode b.now).lines) k) (counts (plays_in (decode b.now).lines) k) j }
{
    if j == 0 {
        return false;
    }
    let i = k as u16;
    let start = block::start_of(b, i) as u64;
    start <= j && j - start < block::entry_count(b, i) as u64
}

// Whether line i hangs on line k and starts at j.
fn hangs_on(b: &[u8], i: u16, k: usize, j: u64) -> bool
    ensures { result ≡ pick (eqb (parent_of b.now i) k) (eqb (start_of b.now i) j) false }
{
    block::parent_of(b, i) == k && block::start_of(b, i) as u64 == j
}

// Whether a variation hangs already on line k at ply j.
fn carries(b: SoundBlock, k: usize, j: u64) -> bool
    ensures { result ≡ carries k j (drop 1 (decode b.entry.bytes.now).lines) }
{
    let lines = block::lines_in(b.bytes);
    for i in 1..lines {
        if hangs_on(b.bytes, i as u16, k, j) {
            return true;
        }
    }
    false
}

// Whether that stands in the way, which it does in version 1.
pub(crate) fn is_taken(b: SoundBlock, k: usize, j: u64) -> bool
    ensures { result ≡ is_taken (version_in b.entry.bytes.now) k j (drop 1 (decode b.entry.bytes.now).lines) }
{
    block::version_in(b.bytes) == 1 && carries(b, k, j)
}

// The number of a new line on line k that starts at j.
pub(crate) fn place_of(b: &[u8], k: usize, j: u64) -> usize
    requires { k < lines_in b.now }
    ensures { (result ≡ place_of (plays_in (decode b.now).lines) k j) × (k < result) × (result ≤ lines_in b.now) }
{
    let lines = block::lines_in(b);
    for n in k + 1..lines {
        if block::start_of(b, n as u16) as u64 <= j {
            return n;
        }
    }
    lines
}

// How many lines are cut with line k, itself one of them: those that follow as far as each hangs on a line not before line k.
pub(crate) fn removed_from(b: SoundBlock, k: usize) -> usize
    requires { (0 < k) × (k < lines_in b.bytes.now) }
    ensures { (result ≡ removed_from (version_in b.entry.bytes.now) (decode b.entry.bytes.now).lines k) × (0 < result) × (k + result ≤ lines_in b.entry.bytes.now) }
{
    let lines = block::lines_in(b.bytes);
    for i in k + 1..lines {
        if block::parent_of(b.bytes, i as u16) < k {
            return i - k;
        }
    }
    lines - k
}
