// What the programs print alike: 01's listing, filled into a lent buffer. Each function that fills answers how many bytes it filled.
#![tactic(auto)]

mod rows;

ghost use Rattle.std.specs.Prelude.{◌≡◌, ◌+◌, ◌*◌, ◌≤◌, ◌<◌, length, take, drop, get_or};
ghost use Rattle.lent.specs.Bytes.{Wrote};
ghost use Rattle.shown.specs.Listing.{listed_row, rows_text, listed};

pub use rows::{put_read, put_refusal};

// The text that a table has at a place: how many bytes it has, and these. Nothing past the end.
pub fn table_text(table: &[u8], at: usize) -> &[u8]
    ensures { result.now ≡ take (get_or table.now at 0) (drop (at + 1) table.now) }
{
    if table.len() <= at {
        return &table[..0];
    }
    lent::front(&table[at + 1..], lent::wide(table[at]))
}

// Line k of a block, for which there is room: each of its numbers has at most 5 digits.
fn put_line(out: &mut [u8], b: &[u8], k: u16) -> usize
    requires { 48 ≤ length out.old }
    ensures { Wrote (listed_row b.now k) out.old out.new result × (result ≤ 48) }
{
    let start = block::start_of(b, k) as u64;
    let moves = block::entry_count(b, k) as u64;
    let parent = block::parent_of(b, k) as u64;
    rows::put_row(out, k as u64, start, moves, parent)
}

// The first lines of a block.
fn put_lines(out: &mut [u8], b: &[u8], count: usize) -> usize
    requires { (count < 65536) × (48 * count ≤ length out.old) }
    ensures { Wrote (rows_text b.now count) out.old out.new result }
{
    let mut n = 0;
    for k in 0..count {
        n += put_line(&mut out[n..], b, k as u16);
    }
    n
}

// The listing of a block that was read from so many bytes, where there is room for the longest with as many lines.
pub fn put_listing(out: &mut [u8], taken: u64, b: &[u8]) -> usize
    ensures { Wrote (listed taken b.now out.old) out.old out.new result }
{
    let count = block::lines_in(b);
    if out.len() < 53 + 48 * count {
        return 0;
    }
    let n = put_read(out, taken, b.len() as u64);
    n + put_lines(&mut out[n..], b, count)
}
