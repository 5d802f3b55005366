// An edited block, measured and stored.
ghost use Rattle.std.specs.Prelude.{◌≡◌, true, ◌+◌, ◌≤◌};
ghost use Rattle.block.specs.Encode.{encode};
ghost use Rattle.block.specs.Decode.{lines_in, moves_in};
ghost use Rattle.block.specs.Sound.{entries_before};
ghost use Rattle.filling.specs.Filling.{are_small};
ghost use Rattle.edit.specs.inner.Splicing.{new_lines, Counted, record_after, sizes_after};
ghost use Rattle.edit.specs.Outcomes.{edit_stored};

use crate::Added;
use crate::copies::{copy_headers, count_entries};
use crate::lines::{put_lines, sizes_added};
use block::SoundBlock;
use filling::Sizes;
use jkf::Answer;

// How many entries stand before line k; all of them where there is no line k.
fn entries_before(b: SoundBlock, k: usize) -> usize
    requires { k ≤ lines_in b.bytes.now }
    ensures { (result ≡ entries_before b.entry.bytes.now k) × (result ≤ moves_in b.entry.bytes.now) }
{
    if k < block::lines_in(b.bytes) {
        return block::first_entry(b.bytes, k as u16);
    }
    block::moves_in(b.bytes)
}

// The sizes of the block with the lines before p, new ones of these sizes, and the lines from q on.
fn measure(b: SoundBlock, p: usize, q: usize, added: Sizes) -> Sizes
    requires range { (p ≤ q) × (q ≤ lines_in b.bytes.now) }
    requires lines_bound { (added.lines ≤ 1) × (added.entries ≤ 65535) × (added.comments ≤ 65535) × (added.bytes ≤ 65535) }
    ensures { (result ≡ sizes_after b.entry.bytes.now p q added) × (are_small result ≡ true) }
{
    let before = entries_before(b, p);
    let after = entries_before(b, q);
    let rest = block::moves_in(b.bytes) - after;
    let front = count_entries(b, 0, before);
    let back = count_entries(b, after, rest);
    Sizes {
        headers: block::headers_in(b.bytes),
        lines: p + added.lines + (block::lines_in(b.bytes) - q),
        entries: before + added.entries + rest,
        comments: front.count + added.comments + back.count,
        bytes: block::header_bytes(b.bytes) + (front.bytes + added.bytes + back.bytes),
    }
}

// The block as a version, its lines from p to q - 1 replaced by new ones; success has this second figure.
pub(crate) fn store(
    b: SoundBlock,
    version: u16,
    p: usize,
    q: usize,
    t: &[u8],
    a: Option<Added>,
    second: u64,
    out: &mut [u8],
) -> Answer
    requires { (p ≤ q) × (q ≤ lines_in b.bytes.now) × Counted a t.now }
    ensures value { result ≡ (edit_stored (encode (record_after version b.entry.bytes.now p q (new_lines a t.now))) second out.old).answer }
    ensures out_after { out.new ≡ (edit_stored (encode (record_after version b.entry.bytes.now p q (new_lines a t.now))) second out.old).buffer }
{
    let sizes = measure(b, p, q, sizes_added(a));
    match filling::open(out, version, sizes, block::position_of(b.bytes)) {
        Ok((w, total)) => {
            let v = copy_headers(b.bytes, w, out);
            put_lines(b, p, q, t, a, v, out);
            Answer::Done(total, second)
        }
        Err(r) => r,
    }
}
