// Header entries, counted and filled in the order of their keys.
ghost use Rattle.std.specs.Prelude.{◌≡◌, ◌<◌, true, [], ◌∷◌, length};
ghost use Rattle.block.specs.Encode.{header_text};
ghost use Rattle.kakinoki.specs.Informations.{header_at};
ghost use Rattle.filling.specs.Filling.{put_header};
ghost use Rattle.filling.specs.inner.Parts.{put_headers};
ghost use Rattle.parser.specs.inner.Headers.{is_header_line, HeaderLines, headers_at};

use filling::Walk;
use text::Cursor;

// How many bytes the key and the value of a header line have: all before its break but for the colon, which has three.
fn header_length(s: &[u8], at: usize) -> usize
    requires { is_header_line s.now at ≡ true }
    ensures { result ≡ length (header_text (header_at s.now at ∷ [])) }
{
    let Some(pair) = kakinoki::key_value(Cursor { at }, s) else {
        return 0;
    };
    pair.to.at - 3 - at
}

// The bytes of the keys and values of header lines.
pub(crate) fn count_headers(s: &[u8], places: &[u16]) -> usize
    requires { HeaderLines s.now places.now }
    ensures { result ≡ length (header_text (headers_at s.now places.now)) }
{
    let mut bytes = 0;
    for &at in places {
        bytes += header_length(s, at as usize);
    }
    bytes
}

// The header entry of the line that begins at a place.
fn fill_header(s: &[u8], at: usize, w: Walk, out: &mut [u8]) -> Walk
    requires { is_header_line s.now at ≡ true }
    ensures value { result ≡ (put_header (header_at s.now at) w out.old).walk }
    ensures out_after { out.new ≡ (put_header (header_at s.now at) w out.old).buffer }
{
    let Some(pair) = kakinoki::key_value(Cursor { at }, s) else {
        return w;
    };
    let start = pair.from.at;
    let end = pair.to.at;
    let colon = start - 3;
    filling::put_header(out, w, &s[at..colon], &s[start..end])
}

// The header entries of the lines that begin at some places.
pub(crate) fn fill_headers(s: &[u8], places: &[u16], w: Walk, out: &mut [u8]) -> Walk
    requires { HeaderLines s.now places.now }
    ensures value { result ≡ (put_headers (headers_at s.now places.now) w out.old).walk }
    ensures out_after { out.new ≡ (put_headers (headers_at s.now places.now) w out.old).buffer }
{
    let mut v = w;
    for &at in places {
        v = fill_header(s, at as usize, v, out);
    }
    v
}
