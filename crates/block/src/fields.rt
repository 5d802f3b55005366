// The fields of a block by their places; bytes past the end are 0. Numbers of rows are below 65,536.
ghost use Rattle.std.specs.Prelude.{◌≡◌, ◌+◌, ◌*◌, ◌≤◌, ◌<◌, length};
ghost use Rattle.lent.specs.Bytes.{le16};
ghost use Rattle.block.specs.Decode.{version_in, headers_in, lines_in, moves_in, comments_in, line_place, move_place, comment_place, text_place, start_of, first_entry, entry_count, parent_of, comment_count};
ghost use Rattle.block.specs.Sound.{sum, entries_before, comments_before, header_bytes, comment_bytes};

// The number of two bytes at a place that has both.
pub(crate) fn pair(b: &[u8], at: usize) -> usize
    requires { at + 1 < length b.now }
    ensures { (result ≡ le16 b.now at) × (result < 65536) }
{
    u16::from_le_bytes([b[at], b[at + 1]]) as usize
}

pub(crate) fn version(b: &[u8]) -> usize
    ensures { (result ≡ version_in b.now) × (result < 65536) }
{
    lent::get16(b, 2)
}

pub(crate) fn headers(b: &[u8]) -> usize
    ensures { (result ≡ headers_in b.now) × (result < 65536) }
{
    lent::get16(b, 6)
}

pub(crate) fn lines(b: &[u8]) -> usize
    ensures { (result ≡ lines_in b.now) × (result < 65536) }
{
    lent::get16(b, 8)
}

pub(crate) fn moves(b: &[u8]) -> usize
    ensures { (result ≡ moves_in b.now) × (result < 65536) }
{
    lent::get16(b, 10)
}

pub(crate) fn comments(b: &[u8]) -> usize
    ensures { (result ≡ comments_in b.now) × (result < 65536) }
{
    lent::get16(b, 12)
}

// Where line k's row stands.
pub(crate) fn line_place(b: &[u8], k: usize) -> usize
    requires { k < 65536 }
    ensures { (result ≡ line_place b.now k) × (result < 2000000) }
{
    128 + 8 * headers(b) + 8 * k
}

pub(crate) fn move_place(b: &[u8], k: usize) -> usize
    requires { k < 65536 }
    ensures { (result ≡ move_place b.now k) × (result < 4000000) }
{
    128 + 8 * headers(b) + 8 * lines(b) + 20 * k
}

pub(crate) fn comment_place(b: &[u8], k: usize) -> usize
    requires { k < 65536 }
    ensures { (result ≡ comment_place b.now k) × (result < 4000000) }
{
    128 + 8 * headers(b) + 8 * lines(b) + 20 * moves(b) + 4 * k
}

pub(crate) fn text_place(b: &[u8]) -> usize
    ensures { (result ≡ text_place b.now) × (result < 4000000) }
{
    128 + 8 * headers(b) + 8 * lines(b) + 20 * moves(b) + 4 * comments(b)
}

// The numbers of two bytes at a place and n - 1 more, each w bytes further, added up, where the whole table is there: none is looked for
// by itself, so that many are added at once.
fn sum_in(b: &[u8], place: usize, w: usize, n: usize) -> usize
    requires { (place + w * n ≤ length b.now) × (2 ≤ w) × (w ≤ 20) × (n < 65536) }
    ensures { (result ≡ sum (λ k. le16 b.now (place + w * k)) n) × (result ≤ 65535 * n) }
{
    let mut total = 0;
    for k in 0..n {
        total += pair(b, place + w * k);
    }
    total
}

// The sum of n numbers of two bytes, w apart, in any slice.
pub(crate) fn sum_of(b: &[u8], place: usize, w: usize, n: usize) -> usize
    requires { (place < 5000000) × (2 ≤ w) × (w ≤ 20) × (n < 65536) }
    ensures { (result ≡ sum (λ k. le16 b.now (place + w * k)) n) × (result ≤ 65535 * n) }
{
    if place + w * n <= b.len() {
        return sum_in(b, place, w, n);
    }
    let mut total = 0;
    for k in 0..n {
        total += lent::get16(b, place + w * k);
    }
    total
}

// How many entries the lines have.
pub(crate) fn entry_total(b: &[u8]) -> usize
    ensures { (result ≡ entries_before b.now (lines_in b.now)) × (result < 4300000000) }
{
    sum_of(b, line_place(b, 0) + 4, 8, lines(b))
}

// How many comments the entries have.
pub(crate) fn comment_total(b: &[u8]) -> usize
    ensures { (result ≡ comments_before b.now (moves_in b.now)) × (result < 4300000000) }
{
    sum_of(b, move_place(b, 0) + 18, 20, moves(b))
}

// How many bytes the keys and values have.
pub(crate) fn header_total(b: &[u8]) -> usize
    ensures { (result ≡ header_bytes b.now (headers_in b.now)) × (result < 8600000000) }
{
    let n = headers(b);
    sum_of(b, 130, 8, n) + sum_of(b, 134, 8, n)
}

// How many bytes the comments have.
pub(crate) fn text_total(b: &[u8]) -> usize
    ensures { (result ≡ comment_bytes b.now (comments_in b.now)) × (result < 4300000000) }
{
    sum_of(b, comment_place(b, 0) + 2, 4, comments(b))
}

pub(crate) fn start_of(b: &[u8], k: usize) -> usize
    requires { k < 65536 }
    ensures { (result ≡ start_of b.now k) × (result < 65536) }
{
    lent::get16(b, line_place(b, k))
}

pub(crate) fn first_entry(b: &[u8], k: usize) -> usize
    requires { k < 65536 }
    ensures { (result ≡ first_entry b.now k) × (result < 65536) }
{
    lent::get16(b, line_place(b, k) + 2)
}

pub(crate) fn entry_count(b: &[u8], k: usize) -> usize
    requires { k < 65536 }
    ensures { (result ≡ entry_count b.now k) × (result < 65536) }
{
    lent::get16(b, line_place(b, k) + 4)
}

pub(crate) fn parent_of(b: &[u8], k: usize) -> usize
    requires { k < 65536 }
    ensures { (result ≡ parent_of b.now k) × (result < 65536) }
{
    lent::get16(b, line_place(b, k) + 6)
}

pub(crate) fn comment_count(b: &[u8], k: usize) -> usize
    requires { k < 65536 }
    ensures { (result ≡ comment_count b.now k) × (result < 65536) }
{
    lent::get16(b, move_place(b, k) + 18)
}
