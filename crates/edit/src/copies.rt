// Header entries, entries and comments of a block: put into another block, and counted.
ghost use Rattle.std.specs.Prelude.{◌≡◌, ◌+◌, ◌*◌, ◌≤◌, ◌<◌, length};
ghost use Rattle.block.specs.Encode.{comment_text};
ghost use Rattle.block.specs.Decode.{run, moves_in, comment_of, noted_in};
ghost use Rattle.filling.specs.Filling.{put_comments, put_noted, put_entries};
ghost use Rattle.edit.specs.inner.Splicing.{comments_within, bytes_within, headers_put};

use crate::Comments;
use block::SoundBlock;
use filling::Walk;

// So many comments from one on.
fn copy_comments(b: &[u8], first: usize, count: usize, w: Walk, out: &mut [u8]) -> Walk
    requires { first + count < 65536 }
    ensures value { result ≡ (put_comments (run (comment_of b.now) first count) w out.old).walk }
    ensures out_after { out.new ≡ (put_comments (run (comment_of b.now) first count) w out.old).buffer }
{
    let mut v = w;
    for i in 0..count {
        v = filling::put_comment(out, v, block::comment_of(b, (first + i) as u16));
    }
    v
}

// Entry k with its comments.
fn copy_entry(b: SoundBlock, k: usize, w: Walk, out: &mut [u8]) -> Walk
    requires { k < moves_in b.bytes.now }
    ensures value { result ≡ (put_noted (noted_in b.entry.bytes.now k) w out.old).walk }
    ensures out_after { out.new ≡ (put_noted (noted_in b.entry.bytes.now k) w out.old).buffer }
{
    let i = k as u16;
    let v = copy_comments(
        b.bytes,
        block::first_comment(b.bytes, i),
        block::comment_count(b.bytes, i),
        w,
        out,
    );
    filling::put_entry(out, v, block::entry_of(b.bytes, i), w.noted)
}

// So many entries from entry k on.
pub(crate) fn copy_entries(b: SoundBlock, k: usize, count: usize, w: Walk, out: &mut [u8]) -> Walk
    requires { k + count ≤ moves_in b.bytes.now }
    ensures value { result ≡ (put_entries (run (noted_in b.entry.bytes.now) k count) w out.old).walk }
    ensures out_after { out.new ≡ (put_entries (run (noted_in b.entry.bytes.now) k count) w out.old).buffer }
{
    let mut v = w;
    for i in 0..count {
        v = copy_entry(b, k + i, v, out);
    }
    v
}

// All header entries.
pub(crate) fn copy_headers(b: &[u8], w: Walk, out: &mut [u8]) -> Walk
    ensures value { result ≡ (headers_put b.now w out.old).walk }
    ensures out_after { out.new ≡ (headers_put b.now w out.old).buffer }
{
    let count = block::headers_in(b);
    let mut v = w;
    for k in 0..count {
        let i = k as u16;
        v = filling::put_header(out, v, block::key_of(b, i), block::value_of(b, i));
    }
    v
}

// How many bytes some comments have.
fn comment_bytes(b: &[u8], first: usize, count: usize) -> usize
    requires { first + count < 65536 }
    ensures { (result ≡ length (comment_text (run (comment_of b.now) first count))) × (result ≤ 65535 * count) }
{
    let mut n = 0;
    for i in 0..count {
        n += block::comment_of(b, (first + i) as u16).len();
    }
    n
}

// How many comments so many entries from entry k on have, and how many bytes these have.
pub(crate) fn count_entries(b: SoundBlock, k: usize, count: usize) -> Comments
    requires { k + count ≤ moves_in b.bytes.now }
    ensures count_value { (result.count ≡ comments_within b.entry.bytes.now k count) × (result.bytes ≡ bytes_within b.entry.bytes.now k count) }
    ensures count_bound { (result.count ≤ 65535 * count) × (result.bytes ≤ 4294967295 * count) }
{
    let mut comments = 0;
    let mut bytes = 0;
    for i in 0..count {
        let e = (k + i) as u16;
        let c = block::comment_count(b.bytes, e);
        comments += c;
        bytes += comment_bytes(b.bytes, block::first_comment(b.bytes, e), c);
    }
    Comments {
        count: comments,
        bytes,
    }
}
