// How long a block is, and its front.
ghost use Rattle.std.specs.Prelude.{◌≡◌, true, ◌≤◌, length, leb};
ghost use Rattle.filling.specs.Filling.{are_small, length_of, begun, opening, front_put, opened};

use crate::{Sizes, Walk};
use jkf::{Answer, Position};

// Whether a size is small enough to be added up.
fn is_small(n: usize) -> bool
    ensures { result ≡ leb n 288230376151711743 }
{
    n <= 288230376151711743
}

fn are_small(z: Sizes) -> bool
    ensures { result ≡ are_small z }
{
    is_small(z.headers)
        && is_small(z.lines)
        && is_small(z.entries)
        && is_small(z.comments)
        && is_small(z.bytes)
}

// Where the parts of a block begin whose sizes can be added up.
fn begin(z: Sizes) -> Walk
    requires { are_small z ≡ true }
    ensures { result ≡ begun z }
{
    let lines = 128 + 8 * z.headers;
    let moves = lines + 8 * z.lines;
    let comments = moves + 20 * z.entries;
    let text = comments + 4 * z.comments;
    Walk {
        headers: 128,
        lines,
        moves,
        comments,
        text,
        entries: 0,
        noted: 0,
        bytes: 0,
    }
}

// The length of a block; the largest number where it is past all measure.
fn length_of(z: Sizes) -> usize
    ensures { result ≡ length_of z }
{
    if !are_small(z) {
        return usize::MAX;
    }
    begin(z).text + z.bytes
}

// Refusals 4 and 5 of a block of these sizes; where it is neither too long nor has too little room, where its parts begin.
pub fn admit(z: Sizes, room: usize) -> Result<(Walk, u64), Answer>
    ensures { result ≡ opening z room }
{
    let total = length_of(z);
    if 65535 < total {
        return Err(Answer::BlockTooLong(total as u64));
    }
    if room < total {
        return Err(Answer::BufferShort(total as u64));
    }
    Ok((begin(z), total as u64))
}

// The head and the position of a block that is not too long.
fn put_front(out: &mut [u8], version: u16, z: Sizes, total: u64, position: Position)
    requires { (total ≡ length_of z) × (total ≤ 65535) × (total ≤ length out.old) }
    ensures { out.new ≡ front_put version z position out.old }
{
    let headers = z.headers as u16;
    let lines = z.lines as u16;
    let entries = z.entries as u16;
    let comments = z.comments as u16;
    block::put_head(
        out,
        version,
        total as u16,
        headers,
        lines,
        entries,
        comments,
    );
    block::put_position(out, 28, position);
}

// Refusals 4 and 5; a block that is admitted has its front filled in.
pub fn open(
    out: &mut [u8],
    version: u16,
    z: Sizes,
    position: Position,
) -> Result<(Walk, u64), Answer>
    ensures value { result ≡ opening z (length out.old) }
    ensures out_after { out.new ≡ opened version z position out.old }
{
    let (w, n) = admit(z, out.len())?;
    put_front(out, version, z, n, position);
    Ok((w, n))
}
