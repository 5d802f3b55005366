// A text looked through before anything of it is stored: refusals 1 to 3, and what its block comes to.
ghost use Rattle.std.specs.Prelude.{◌≡◌, ◌*◌, ◌≤◌, length};
ghost use Rattle.kakinoki.specs.Starts.{start_read};
ghost use Rattle.parser.specs.Read.{faultless, early_of};
ghost use Rattle.parser.specs.inner.Stores.{PlacesIn, Prepared, Surveyed, Sorted};

use crate::Survey;
use crate::counts::count_lines;
use crate::headers::count_headers;
use filling::Sizes;
use jkf::{Answer, Position};
use kakinoki::Start;
use text::Cursor;

// A text that is refused, of which nothing else is told.
fn refused(a: Answer) -> Survey
    ensures { result.early ≡ Some a }
{
    Survey {
        early: Some(a),
        position: Position {
            preset: 0,
            board: 0,
            turn: 0,
            cells: [0; 81],
            hands: [0; 14],
        },
        moves: Cursor { at: 0 },
        sizes: Sizes {
            headers: 0,
            lines: 0,
            entries: 0,
            comments: 0,
            bytes: 0,
        },
        taken: 0,
    }
}

// What the block of a text comes to, of which the places of the header lines are known by key.
fn sized(s: &[u8], position: Position, c: Cursor, headers: &[u16]) -> Survey
    requires { Prepared s.now position c.at headers.now }
    ensures { (result.early ≡ None) × Surveyed s.now result headers.now }
{
    let all = count_lines(c, s);
    Survey {
        early: None,
        position,
        moves: c,
        sizes: Sizes {
            headers: headers.len(),
            lines: all.lines,
            entries: all.entries,
            comments: all.comments,
            bytes: count_headers(s, headers) + all.bytes,
        },
        taken: all.next.at,
    }
}

// What stands before the moves was read without a fault: its header lines are sorted by key.
fn survey_start(s: &[u8], start: Start, places: &[u16], sorted: &mut [u16]) -> Survey
    requires s_len_bound { (length s.now ≤ 65535) × (start ≡ start_read s.now) × PlacesIn s.now places.now }
    requires in_bounds { 13107 ≤ length sorted.old }
    ensures { (result.early ≡ None) × Sorted s.now result sorted.new }
{
    let n = start.headers;
    let kept = sorted::sort_keys(s, &places[..n], &mut sorted[..n]);
    sized(s, start.position, start.next, &sorted[..kept])
}

// A text that is not too long and is UTF-8, with a scratch that has room for the places of its header lines.
fn survey_through(s: &[u8], places: &mut [u16], sorted: &mut [u16]) -> Survey
    requires { (length s.now ≤ 65535) × (length s.now ≤ 5 * length places.old) × (13107 ≤ length sorted.old) }
    ensures early_value { result.early ≡ faultless s.now }
    ensures sorted { result.early ≡ None → Sorted s.now result sorted.new }
{
    let start = kakinoki::parse_without_moves(s, places);
    match start.fault {
        Some(at) => refused(Answer::HandLine(at as u64)),
        None => survey_start(s, start, places, sorted),
    }
}

// The same; a short text takes a short scratch, which takes less time to clear.
fn survey_text(s: &[u8], sorted: &mut [u16]) -> Survey
    requires { (length s.now ≤ 65535) × (13107 ≤ length sorted.old) }
    ensures early_value { result.early ≡ faultless s.now }
    ensures sorted { result.early ≡ None → Sorted s.now result sorted.new }
{
    if s.len() <= 16384 {
        let mut few = [0u16; 3277];
        return survey_through(s, &mut few, sorted);
    }
    let mut places = [0u16; 13107];
    survey_through(s, &mut places, sorted)
}

// A text, and the places of its header lines by key.
pub(crate) fn survey(s: &[u8], sorted: &mut [u16]) -> Survey
    requires { 13107 ≤ length sorted.old }
    ensures early_value { result.early ≡ early_of s.now }
    ensures sorted { result.early ≡ None → Sorted s.now result sorted.new }
{
    if 65535 < s.len() {
        return refused(Answer::TextTooLong(s.len() as u64));
    }
    let n = text::well_formed(s);
    if n < s.len() {
        return refused(Answer::NotUtf8(n as u64));
    }
    survey_text(s, sorted)
}
