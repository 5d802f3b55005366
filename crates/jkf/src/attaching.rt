// The attaching rule over a table of lines in lent memory: rows of eight bytes, start, first entry, entry count, parent.
ghost use Rattle.std.specs.Prelude.{◌≡◌};
ghost use Rattle.jkf.specs.Attaching.{near};
ghost use Rattle.jkf.specs.Following.{start_at, count_at, Linked, followed, hangs_by};

// The start of line k; 0 past the table.
fn start(lines: &[u8], k: usize) -> u64
    ensures { result ≡ start_at lines.now k }
{
    if lines.len() / 8 < k {
        return 0;
    }
    lent::get16(lines, 8 * k) as u64
}

// How many entries line k has; 0 past the table.
fn count(lines: &[u8], k: usize) -> u64
    ensures { result ≡ count_at lines.now k }
{
    if lines.len() / 8 < k {
        return 0;
    }
    lent::get16(lines, 8 * k + 4) as u64
}

// The nearest of k lines whose start is at or below s, found by looking at each in turn; line 0 where there is none.
pub fn nearest_in_turn(lines: &[u8], k: usize, s: u64) -> usize
    ensures { result ≡ near (start_at lines.now) s k }
{
    for j in (0..k).rev() {
        if start(lines, j) <= s {
            return j;
        }
    }
    0
}

// The first line whose start is at or below s along the parents, from the last of k lines on. All lines between a line and its right
// parent start above it, so with such parents this is the nearest.   (the Rust's merge_forks finds it by a stack)
pub fn nearest(lines: &[u8], k: usize, s: u64) -> usize
    ensures by_parents { result ≡ followed lines.now s k }
    ensures as_searched { Linked lines.now k → result ≡ near (start_at lines.now) s k }
{
    if k == 0 {
        return 0;
    }
    let mut j = k - 1;
    // no range: a parent says which line is next
    while s < start(lines, j) {
        let p = lent::get16(lines, 8 * j + 6);
        if j <= p {
            return 0;
        }
        j = p;
    }
    j
}

// Where a line that starts at s hangs, after k lines.   (the Rust's attach)
#[tactic(auto, unfolding(crate::specs::Following::hangs_by))]
pub fn hang_of(lines: &[u8], k: usize, s: u64) -> Option<(u64, u64)>
    ensures { result ≡ hangs_by lines.now s k }
{
    let p = nearest(lines, k, s);
    let e = s.checked_sub(start(lines, p))?;
    (e < count(lines, p)).then_some((p as u64, e))
}
