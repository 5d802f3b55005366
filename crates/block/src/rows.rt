// The rows of a block as they are put: each from a place on, whole or not at all; the answer is the place past it.
ghost use Rattle.std.specs.Prelude.{◌≡◌, ◌++◌, drop};
ghost use Rattle.lent.specs.Bytes.{bytes16, fitting};
ghost use Rattle.lent.specs.Stored.{Stored};
ghost use Rattle.block.specs.Encode.{head_bytes, line_bytes};

// The two bytes of a number, the low one first; what is above 16 bits is left out.
pub(crate) fn bytes16(n: u64) -> [u8; 2]
    ensures { result ≡ bytes16 n }
{
    let [low, high, ..] = n.to_le_bytes();
    [low, high]
}

// The head of a block: its mark, its version, its length, the four counts, the five offsets, zeros.
pub fn put_head(
    out: &mut [u8],
    version: u16,
    total: u16,
    headers: u16,
    lines: u16,
    entries: u16,
    comments: u16,
) -> usize
    ensures { Stored (fitting (head_bytes version total headers lines entries comments) out.old) out.old out.new 0 result }
{
    let line_place = 128 + 8 * u64::from(headers);
    let move_place = line_place + 8 * u64::from(lines);
    let comment_place = move_place + 20 * u64::from(entries);
    let text_place = comment_place + 4 * u64::from(comments);
    lent::put_at(
        out,
        0,
        [
            [b'K', b'B'],
            version.to_le_bytes(),
            total.to_le_bytes(),
            headers.to_le_bytes(),
            lines.to_le_bytes(),
            entries.to_le_bytes(),
            comments.to_le_bytes(),
            bytes16(128),
            bytes16(line_place),
            bytes16(move_place),
            bytes16(comment_place),
            bytes16(text_place),
            [0, 0],
            [0, 0],
        ]
        .as_flattened(),
    )
}

// Four numbers of 16 bits.
fn put_four(out: &mut [u8], at: usize, a: u64, b: u64, c: u64, d: u64) -> usize
    ensures { Stored (fitting (bytes16 a ++ bytes16 b ++ bytes16 c ++ bytes16 d) (drop at out.old)) out.old out.new at result }
{
    lent::put_at(
        out,
        at,
        [bytes16(a), bytes16(b), bytes16(c), bytes16(d)].as_flattened(),
    )
}

// A header entry: where its key begins among the texts and how long it is, and the same of its value.
pub fn put_header_row(
    out: &mut [u8],
    at: usize,
    start: usize,
    key: usize,
    middle: usize,
    value: usize,
) -> usize
    ensures { Stored (fitting (bytes16 start ++ bytes16 key ++ bytes16 middle ++ bytes16 value) (drop at out.old)) out.old out.new at result }
{
    put_four(
        out,
        at,
        start as u64,
        key as u64,
        middle as u64,
        value as u64,
    )
}

// A line: its start, its first entry, how many entries it has, its parent.
pub fn put_line_row(
    out: &mut [u8],
    at: usize,
    start: u64,
    first: usize,
    count: usize,
    parent: u64,
) -> usize
    ensures { Stored (fitting (line_bytes start first count parent) (drop at out.old)) out.old out.new at result }
{
    put_four(out, at, start, first as u64, count as u64, parent)
}

// A comment: where it begins among the texts, and how long it is.
pub fn put_comment_row(out: &mut [u8], at: usize, offset: usize, length: usize) -> usize
    ensures { Stored (fitting (bytes16 offset ++ bytes16 length) (drop at out.old)) out.old out.new at result }
{
    lent::put_at(
        out,
        at,
        [bytes16(offset as u64), bytes16(length as u64)].as_flattened(),
    )
}
