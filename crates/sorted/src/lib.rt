// Header lines sorted by key, of equal keys the last kept, without a heap.   (the Rust's HashMap)
#![tactic(auto)]

ghost use Rattle.std.specs.Prelude.{◌≡◌, ◌+◌, ◌-◌, ◌≤◌, ◌<◌, min, ◌++◌, map, length, take, drop, replicate, true};
ghost use Rattle.text.specs.Text.{key_at};
ghost use Rattle.sorted.specs.inner.Heads.{is_plain, head_of, Four};
ghost use Rattle.sorted.specs.Sorted.{by_bytes, kept_count, kept_buffer};
ghost use Rattle.sorted.specs.inner.Orders.{merge, Leads};
ghost use Rattle.sorted.specs.inner.Packs.{Lead, Packable, Packs, packed, pack_place, lead_told, by_pack, step_of};

use std::cmp::Ordering;

// A step of a merge: how many it takes of each run, and what it puts.
#[derive(Clone, Copy)]
pub struct MergeStep {
    pub left: usize,
    pub right: usize,
    pub value: usize,
}

// Whether a byte belongs to its key whatever follows it.
fn plain(b: u8) -> bool
    ensures { result ≡ is_plain b }
{
    !matches!(b, b'\n' | b'\r' | 239)
}

// One more than the key's byte at a place, and 0 at the key's end.
fn key_head(s: &[u8], at: usize) -> usize
    ensures { (result ≡ head_of (key_at s.now at)) × (result ≤ 256) }
{
    if s.len() <= at {
        return 0;
    }
    let b = s[at];
    if plain(b) {
        return lent::wide(b) + 1;
    }
    if b != 239 {
        return 0;
    }
    if text::stands(s, at, b"\xef\xbc\x9a") {
        return 0;
    }
    240
}

fn compare_slowly(s: &[u8], p: usize, q: usize) -> Ordering
    ensures { result ≡ by_bytes (key_at s.now p) (key_at s.now q) }
{
    let mut i = p;
    let mut j = q;
    loop {
        let a = key_head(s, i);
        let b = key_head(s, j);
        if a < b {
            return Ordering::Less;
        }
        if b < a {
            return Ordering::Greater;
        }
        if a == 0 {
            return Ordering::Equal;
        }
        i += 1;
        j += 1;
    }
}

// Whether a byte is surely plain: one range of plain bytes is asked for, which is faster than three bytes.
fn calm(b: u8) -> bool
    ensures { result ≡ true → is_plain b ≡ true }
{
    (14..239).contains(&b)
}

// The key's next four bytes as one number, where all are surely plain, and else 0.
fn four(s: &[u8], at: usize) -> usize
    requires { at + 4 ≤ length s.now }
    ensures { 0 < result → Four s.now at result }
{
    let a = s[at];
    if !calm(a) {
        return 0;
    }
    let b = s[at + 1];
    if !calm(b) {
        return 0;
    }
    let c = s[at + 2];
    if !calm(c) {
        return 0;
    }
    let d = s[at + 3];
    if !calm(d) {
        return 0;
    }
    ((lent::wide(a) * 256 + lent::wide(b)) * 256 + lent::wide(c)) * 256 + lent::wide(d)
}

// The same as compare_slowly, faster: four bytes at a time while they are equal, and what is left slowly.
fn compare_keys(s: &[u8], p: usize, q: usize) -> Ordering
    ensures { result ≡ by_bytes (key_at s.now p) (key_at s.now q) }
{
    let m = p.max(q);
    if s.len() <= m {
        return compare_slowly(s, p, q);
    }
    let mut left = s.len() - m;
    let mut i = p;
    let mut j = q;
    // no range: two places go on together, and how far is said by what is left behind the later one
    while 4 <= left {
        let x = four(s, i);
        if x == 0 {
            return compare_slowly(s, i, j);
        }
        let y = four(s, j);
        if y == 0 {
            return compare_slowly(s, i, j);
        }
        if x < y {
            return Ordering::Less;
        }
        if y < x {
            return Ordering::Greater;
        }
        i += 4;
        j += 4;
        left -= 4;
    }
    compare_slowly(s, i, j)
}

// The first six bytes of a key as one number, with zeros where it is shorter.
fn lead(s: &[u8], at: usize) -> usize
    ensures { Lead (key_at s.now at) result }
{
    let mut v = 0;
    let mut i = at;
    for _ in 0..6usize {
        let h = key_head(s, i);
        if h == 0 {
            // where a key has ended is found once: at the end of the text there is none either
            v *= 256;
            i = s.len();
            continue;
        }
        v = v * 256 + (h - 1);
        i += 1;
    }
    v
}

// A place behind the lead of its key: most keys are told apart by these numbers alone.
fn pack(s: &[u8], p: u16) -> usize
    ensures { (result ≡ packed s.now p) × Packable s.now p }
{
    lead(s, usize::from(p)) * 65536 + usize::from(p)
}

// How many bytes of its key a lead tells: keys with equal leads are compared behind them.
fn told(l: usize) -> usize
    ensures { (result ≡ lead_told l) × (result ≤ 6) }
{
    if l % 256 == 0 { 0 } else { 6 }
}

// 1 where x is less than y, and else 0.
fn is_less(x: usize, y: usize) -> usize
    ensures { (x < y → result ≡ 1) × (y ≤ x → result ≡ 0) × (result ≤ 1) }
{
    if x < y { 1 } else { 0 }
}

fn lesser(x: usize, y: usize) -> usize
    ensures { result ≡ min x y }
{
    if x < y { x } else { y }
}

// The step of a merge that finds x and y. Where leads differ it is reckoned without a branch, since which one is less cannot be foreseen.
fn choose(s: &[u8], x: usize, y: usize) -> MergeStep
    ensures { (result ≡ step_of (by_pack s.now x y) x y) × (result.left ≤ 1) × (result.right ≤ 1) × (1 ≤ result.left + result.right) }
{
    if x / 65536 != y / 65536 {
        let left = is_less(x, y);
        let right = 1 - left;
        let value = lesser(x, y);
        return MergeStep { left, right, value };
    }
    let d = told(x / 65536);
    match compare_keys(s, x % 65536 + d, y % 65536 + d) {
        Ordering::Less => MergeStep {
            left: 1,
            right: 0,
            value: x,
        },
        Ordering::Equal => MergeStep {
            left: 1,
            right: 1,
            value: y,
        },
        Ordering::Greater => MergeStep {
            left: 0,
            right: 1,
            value: y,
        },
    }
}

fn copy_packs(from: &[usize], out: &mut [usize]) -> usize
    requires { length from.now ≤ length out.old }
    ensures { (result ≡ length from.now) × (out.new ≡ from.now ++ drop (length from.now) out.old) }
{
    out[..from.len()].copy_from_slice(from);
    from.len()
}

// Two sorted runs into one; of equal keys the second's stays.
fn merge_runs(s: &[u8], a: &[usize], b: &[usize], out: &mut [usize]) -> usize
    requires { length a.now + length b.now ≤ length out.old }
    ensures { Leads (merge (by_pack s.now) a.now b.now) out.new result }
{
    let mut i = 0;
    let mut j = 0;
    let mut k = 0;
    loop {
        if i == a.len() {
            return k + copy_packs(&b[j..], &mut out[k..]);
        }
        if j == b.len() {
            return k + copy_packs(&a[i..], &mut out[k..]);
        }
        let t = choose(s, a[i], b[j]);
        out[k] = t.value;
        i += t.left;
        j += t.right;
        k += 1;
    }
}

// The runs t[..i] and t[h..e], which cannot both be lent where t may still be written.
fn merge_halves(s: &[u8], t: &[usize], i: usize, h: usize, e: usize, out: &mut [usize]) -> usize
    requires { (i ≤ h) × (h ≤ e) × (e ≤ length t.now) × (e ≤ length out.old) }
    ensures { Leads (merge (by_pack s.now) (take i t.now) (take (e - h) (drop h t.now))) out.new result }
{
    merge_runs(s, &t[..i], &t[h..e], out)
}

// The kept places, packed, into the front of out. The halves are sorted into t, with out as scratch, so nothing is copied back.
fn sort_places(s: &[u8], from: &[u16], out: &mut [usize], t: &mut [usize]) -> usize
    requires { (length from.now ≤ length out.old) × (length from.now ≤ length t.old) }
    ensures { Packs s.now from.now out.new result }
{
    let n = from.len();
    if n == 0 {
        return 0;
    }
    if n == 1 {
        out[0] = pack(s, from[0]);
        return 1;
    }
    let h = n / 2;
    let i = sort_places(s, &from[..h], t, out);
    let j = sort_places(s, &from[h..], &mut t[h..], out);
    merge_halves(s, t, i, h, h + j, out)
}

// The places of the first n packs.
fn unpack(from: &[usize], n: usize, out: &mut [u16])
    requires { (n ≤ length from.now) × (n ≤ length out.old) }
    ensures { out.new ≡ map pack_place (take n from.now) ++ drop n out.old }
{
    for i in 0..n {
        out[i] = (from[i] % 65536) as u16;
    }
}

// Zeros from a place on.
fn clear_from(out: &mut [u16], at: usize)
    requires { at ≤ length out.old }
    ensures { out.new ≡ take at out.old ++ replicate (length out.old - at) 0 }
{
    out[at..].fill(0);
}

// The kept places into out, and zeros behind them, with u and t as scratch.
fn sort_through(
    s: &[u8],
    places: &[u16],
    out: &mut [u16],
    u: &mut [usize],
    t: &mut [usize],
) -> usize
    requires { (length places.now ≤ 13107) × (length places.now ≤ length out.old) × (length places.now ≤ length u.old) × (length places.now ≤ length t.old) }
    ensures value { result ≡ kept_count s.now places.now out.old }
    ensures out_after { out.new ≡ kept_buffer s.now places.now out.old }
{
    let r = sort_places(s, places, u, t);
    unpack(u, r, out);
    clear_from(out, r);
    r
}

// The places of header lines by key, of equal keys the last, and zeros behind them; how many they are.
// Nothing, and 0, where they are more than 13,107 or more than fit.
pub fn sort_keys(s: &[u8], places: &[u16], out: &mut [u16]) -> usize
    ensures value { result ≡ kept_count s.now places.now out.old }
    ensures out_after { out.new ≡ kept_buffer s.now places.now out.old }
{
    let n = places.len();
    if 13107 < n {
        return 0;
    }
    if out.len() < n {
        return 0;
    }
    // few places take short scratches, which take less time to clear
    if n <= 64 {
        let mut few = [0usize; 64];
        let mut more = [0usize; 64];
        return sort_through(s, places, out, &mut few, &mut more);
    }
    let mut scratch = [0usize; 13107];
    let mut other = [0usize; 13107];
    sort_through(s, places, out, &mut scratch, &mut other)
}
