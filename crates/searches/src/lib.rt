// Both searches for the line that a variation hangs on, under fixed names for C: `oracle/bench` times them side by side.
#![tactic(auto)]

ghost use Rattle.std.specs.Prelude.{◌≡◌};
ghost use Rattle.jkf.specs.Attaching.{near};
ghost use Rattle.jkf.specs.Following.{start_at, Linked, followed};

// Along the parents.
#[unsafe(no_mangle)]
pub extern "C" fn search_by_parents(lines: &[u8], k: usize, s: u64) -> usize
    ensures by_parents { result ≡ followed lines.now s k }
    ensures as_searched { Linked lines.now k → result ≡ near (start_at lines.now) s k }
{
    jkf::nearest(lines, k, s)
}

// One line after the other.
#[unsafe(no_mangle)]
pub extern "C" fn search_in_turn(lines: &[u8], k: usize, s: u64) -> usize
    ensures { result ≡ near (start_at lines.now) s k }
{
    jkf::nearest_in_turn(lines, k, s)
}
