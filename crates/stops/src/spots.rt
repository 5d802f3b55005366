// The line and the column of a place.
ghost use Rattle.std.specs.Prelude.{◌≡◌, ◌<◌, ◌^◌};
ghost use Rattle.stops.specs.Stopping.{next_spot, spot_at};

use crate::Spot;

// A byte later.
fn next_spot(b: u8, x: Spot) -> Spot
    requires { (x.line < 2 ^ 63) × (x.column < 2 ^ 63) }
    ensures { result ≡ next_spot b x }
{
    if b == b'\n' {
        return Spot {
            line: x.line + 1,
            column: 1,
        };
    }
    if 128 <= b && b < 192 {
        return x;
    }
    Spot {
        line: x.line,
        column: x.column + 1,
    }
}

// The line and the column of a place; past the end those of the end.
pub fn line_column(text: &[u8], at: usize) -> Spot
    ensures { result ≡ spot_at text.now at }
{
    let mut x = Spot { line: 1, column: 1 };
    for &b in lent::front(text, at) {
        x = next_spot(b, x);
    }
    x
}
