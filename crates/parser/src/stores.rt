// What a text says, stored as a block.
ghost use Rattle.std.specs.Prelude.{◌≡◌, length, replicate};
ghost use Rattle.parser.specs.Parse.{parse};
ghost use Rattle.parser.specs.Read.{read_stored, filled_with};
ghost use Rattle.parser.specs.inner.Stores.{Prepared, Surveyed, Opened, hung_lost, stored_lost};

use crate::fills::fill_lines;
use crate::headers::fill_headers;
use crate::{FillAnswer, Survey};
use filling::Walk;
use jkf::Answer;
use text::Cursor;

// A refusal, beside which no lost time is told.
pub(crate) fn refused(a: Answer) -> FillAnswer
    ensures { (result.answer ≡ a) × (result.lost ≡ 0) }
{
    FillAnswer { answer: a, lost: 0 }
}

// The whole buffer set to zero.
fn clear(out: &mut [u8])
    ensures { out.new ≡ replicate (length out.old) 0 }
{
    out.fill(0);
}

// All parts of a block that is begun; zeros where a variation has no entry to hang on.
fn fill_parts(
    s: &[u8],
    c: Cursor,
    headers: &[u16],
    w: Walk,
    total: u64,
    out: &mut [u8],
) -> FillAnswer
    requires prepared { Prepared s.now (parse s.now).position c.at headers.now }
    requires opened { Opened (parse s.now) w total out.old }
    ensures answer_value { result.answer ≡ (filled_with (parse s.now) out.old).answer }
    ensures out_after { out.new ≡ (filled_with (parse s.now) out.old).buffer }
    ensures lost_value { result.lost ≡ hung_lost s.now }
{
    let v = fill_headers(s, headers, w, out);
    match fill_lines(s, c, v, out) {
        Ok((end, lost)) => FillAnswer {
            answer: Answer::Done(end.at as u64, total),
            lost: lost as u64,
        },
        Err((variation, ply)) => {
            clear(out);
            refused(Answer::NoEntry(variation, ply))
        }
    }
}

// The block of a text that was looked through: refused where it is too long or the buffer too short, else filled.
pub(crate) fn store(s: &[u8], v: Survey, headers: &[u16], out: &mut [u8]) -> FillAnswer
    requires { Surveyed s.now v headers.now }
    ensures answer_value { result.answer ≡ (read_stored (parse s.now) out.old).answer }
    ensures out_after { out.new ≡ (read_stored (parse s.now) out.old).buffer }
    ensures lost_value { result.lost ≡ stored_lost s.now (length out.old) }
{
    match filling::open(out, 1, v.sizes, v.position) {
        Ok((w, total)) => fill_parts(s, v.moves, headers, w, total, out),
        Err(a) => refused(a),
    }
}
