// A text measured, and filled into a block.
ghost use Rattle.std.specs.Prelude.{◌≡◌};
ghost use Rattle.parser.specs.Read.{measured, measure_of, fill_of, lost_of};
ghost use Rattle.filling.specs.Filling.{length_of};

use crate::FillAnswer;
use crate::stores::{refused, store};
use crate::surveys::survey;
use filling::Sizes;
use jkf::Answer;

// The length of a block and the bytes taken, or refusal 4: there is room for all that is not too long.
fn measured(sizes: Sizes, taken: usize) -> Answer
    ensures { result ≡ measured (length_of sizes) taken }
{
    match filling::admit(sizes, 65535) {
        Err(a) => a,
        Ok((_, n)) => Answer::Done(n, taken as u64),
    }
}

// How long the block of a text is, and how many bytes are taken. No memory is lent.
pub fn measure(text: &[u8]) -> Answer
    ensures { result ≡ measure_of text.now }
{
    let mut sorted = [0u16; 13107];
    let v = survey(text, &mut sorted);
    match v.early {
        Some(a) => a,
        None => measured(v.sizes, v.taken),
    }
}

// Reads a text into the front of a lent buffer, and tells how many times were lost.
pub fn fill(text: &[u8], out: &mut [u8]) -> FillAnswer
    ensures answer_value { result.answer ≡ (fill_of text.now out.old).answer }
    ensures out_after { out.new ≡ (fill_of text.now out.old).buffer }
    ensures lost_value { result.lost ≡ lost_of text.now out.old }
{
    let mut sorted = [0u16; 13107];
    let v = survey(text, &mut sorted);
    match v.early {
        Some(a) => refused(a),
        None => {
            let n = v.sizes.headers;
            store(text, v, &sorted[..n], out)
        }
    }
}
