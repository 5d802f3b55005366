// One line more of a block, hung by the attaching rule on those before it.
ghost use Rattle.std.specs.Prelude.{◌≡◌};
ghost use Rattle.filling.specs.Filling.{hanging_of, hooked_of, hooked_in};

use crate::Walk;
use crate::puts::put_line;

// Where the next line hangs that starts at a ply, of a block whose line rows begin at a place: the first on none, and its parent is 0.
fn hanging(out: &[u8], w: Walk, rows: usize, start: u64) -> Option<(u64, u64)>
    ensures { result ≡ hanging_of rows start w out.now }
{
    let k = w.lines.saturating_sub(rows) / 8;
    if k == 0 {
        return Some((0, 0));
    }
    jkf::hang_of(lent::rest(out, rows), k, start)
}

// The row of the line that has the entries from number first on and starts at a ply; nothing is put where it hangs on no entry.
pub fn hang_line(out: &mut [u8], w: Walk, rows: usize, start: u64, first: usize) -> Option<Walk>
    ensures value { result ≡ hooked_of rows start first w out.old }
    ensures out_after { out.new ≡ hooked_in rows start first w out.old }
{
    let parent = hanging(out, w, rows, start)?.0;
    Some(put_line(out, w, start, parent, first))
}
