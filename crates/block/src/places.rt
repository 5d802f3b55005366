// The tests of a sound block's position and lines.
ghost use Rattle.std.specs.Prelude.{◌≡◌, ◌-◌, ◌<◌, length, get_or};
ghost use Rattle.lists.specs.Test.{◌equals◌, holds, each, flag};
ghost use Rattle.jkf.specs.Trees.{has_ply, hang_test, HangAs};
ghost use Rattle.jkf.specs.inner.Climbing.{climb, follows};
ghost use Rattle.block.specs.Decode.{version_in, lines_in, start_of, entry_count, parent_of};
ghost use Rattle.block.specs.Sound.{is_cell, diagram_test, fits_test, position_test, line_test, entries_before};

use crate::fields;
use crate::position_bytes::position_in;
use jkf::Position;

pub(crate) fn all_zero(s: &[u8]) -> bool
    ensures { result ≡ flag (each (length s.now) (λ i. get_or s.now i 0 equals 0)) }
{
    s.iter().all(|b| *b == 0)
}

fn is_cell(c: u8) -> bool
    ensures { result ≡ is_cell c }
{
    matches!(c, 0..=14 | 17..=30)
}

fn all_cells(s: &[u8]) -> bool
    ensures { result ≡ flag (each (length s.now) (λ i. holds (is_cell (get_or s.now i 0)))) }
{
    s.iter().all(|c| is_cell(*c))
}

// Without a diagram turn, cells and counts are zero; with one the preset is 16.
fn diagram_sound(p: Position) -> bool
    ensures { result ≡ flag (diagram_test p) }
{
    let cells = p.cells;
    let hands = p.hands;
    if p.board != 0 {
        return p.preset == 16;
    }
    p.turn == 0 && all_zero(&cells) && all_zero(&hands)
}

fn position_fits(p: Position) -> bool
    ensures { result ≡ flag (fits_test p) }
{
    let cells = p.cells;
    p.preset <= 16 && p.board <= 1 && p.turn <= 1 && all_cells(&cells) && diagram_sound(p)
}

pub(crate) fn position_sound(b: &[u8]) -> bool
    ensures { result ≡ flag (position_test b.now) }
{
    lent::peek(b, 31) == 0
        && lent::peek(b, 127) == 0
        && position_fits(position_in(lent::rest(b, 28)))
}

// Whether line p has a ply.
fn has_ply(b: &[u8], p: usize, ply: usize) -> bool
    requires { p < 65536 }
    ensures { result ≡ has_ply (start_of b.now p) (entry_count b.now p) ply }
{
    let start = fields::start_of(b, p);
    start <= ply && ply - start < fields::entry_count(b, p)
}

// From the line before line k up the parents, to the first whose parent is not past line p.
fn climb(b: &[u8], k: usize, p: usize) -> usize
    requires { (0 < k) × (k < 65536) × HangAs (version_in b.now) (start_of b.now) (entry_count b.now) (parent_of b.now) k }
    ensures { (result ≡ climb (parent_of b.now) p k (k - 1)) × (result < 65536) }
{
    let mut q = k - 1;
    let mut up = fields::parent_of(b, q);
    // no range: a parent says which line is next
    while p < up {
        q = up;
        up = fields::parent_of(b, q);
    }
    q
}

// Whether line q hangs on line k's parent p too, and line k starts below it, or in version 2 not above it.
fn follows(b: &[u8], k: usize, p: usize, q: usize) -> bool
    requires { (k < 65536) × (q < 65536) × (p ≡ parent_of b.now k) }
    ensures { result ≡ follows (version_in b.now) (start_of b.now) (parent_of b.now) k q }
{
    if fields::parent_of(b, q) != p {
        return false;
    }
    let start = fields::start_of(b, k);
    let before = fields::start_of(b, q);
    if fields::version(b) == 1 {
        start < before
    } else {
        start <= before
    }
}

// Line 0 starts at 0 and has no parent; any other hangs as the version asks. The lines before are known to.
fn hangs_right(b: &[u8], k: usize) -> bool
    requires { (k < 65536) × HangAs (version_in b.now) (start_of b.now) (entry_count b.now) (parent_of b.now) k }
    ensures { result ≡ flag (hang_test (version_in b.now) (start_of b.now) (entry_count b.now) (parent_of b.now) k) }
{
    let p = fields::parent_of(b, k);
    let start = fields::start_of(b, k);
    if k == 0 {
        return start == 0 && p == 0;
    }
    if k <= p {
        return false;
    }
    if !has_ply(b, p, start) {
        return false;
    }
    p + 1 == k || follows(b, k, p, climb(b, k, p))
}

// Line k, whose entries begin with this one.
fn line_sound(b: &[u8], k: usize, first: usize) -> bool
    requires { (k < 65536) × (first ≡ entries_before b.now k) × HangAs (version_in b.now) (start_of b.now) (entry_count b.now) (parent_of b.now) k }
    ensures { result ≡ flag (line_test b.now k) }
{
    fields::first_entry(b, k) == first && 1 <= fields::entry_count(b, k) && hangs_right(b, k)
}

pub(crate) fn lines_sound(b: &[u8]) -> bool
    ensures { result ≡ flag (each (lines_in b.now) (line_test b.now)) }
{
    let n = fields::lines(b);
    let mut at = 0;
    for k in 0..n {
        if !line_sound(b, k, at) {
            return false;
        }
        at += fields::entry_count(b, k);
    }
    true
}
