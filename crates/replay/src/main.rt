// Replays recorded requests, and prints how many of the recorded answers the library gives, by kind.
// A record is its kind, the lengths of request and answer (four bytes each, low byte first), request and answer.
#![tactic(auto)]

mod blocks;
mod buffers;
mod leaves;
mod lines;
mod request;

use request::is;
use std::fs::File;
use std::io;
use std::io::Read;

// The kinds, in the order of their names.
const KINDS: &[u8] = b"utdnzhwcfslmkxgrbpoq";

// How many records of each kind there were, and in how many the answers agreed. The last place is for unknown kinds.
#[derive(Drop)]
pub struct Tally {
    pub asked: [u64; 21],
    pub agreed: [u64; 21],
}

impl Tally {
    fn counted(mut self, kind: usize, agrees: bool) -> Tally {
        if 20 < kind {
            return self;
        }
        self.asked[kind] = self.asked[kind].wrapping_add(1);
        if agrees {
            self.agreed[kind] = self.agreed[kind].wrapping_add(1);
        }
        self
    }
}

// Where a kind stands in the tally.
fn place_of(kind: u8) -> usize {
    KINDS.iter().position(|k| *k == kind).unwrap_or(KINDS.len())
}

// The name of the kind at a place of the tally: rows of 32 bytes.
fn print_name(rt: &impl Print, place: usize) -> io::Result<()> {
    rt.write_all(shown::table_text(
        b"\x0cUTF-8 counts                   \
          \x1eblanks, padding, tails, breaks \
          \x0cnumbers read                   \
          \x0espellings read                 \
          \x0dnumerals read                  \
          \x10hand counts read               \
          \x11spellings written              \
          \x13hand counts written            \
          \x0fnumbers written                \
          \x14blocks, sound or not           \
          \x08look-ups                       \
          \x0amove lines                     \
          \x08comments                       \
          \x0askip lines                     \
          \x0etexts measured                 \
          \x0atexts read                     \
          \x0eblocks written                 \
          \x11variations put in              \
          \x09lines cut                      \
          \x05stops                          \
          \x0fof unknown kind                ",
        32 * place.min(20),
    ))
}

// Whether the library's answer to a request is the recorded one.
fn agrees(kind: u8, request: &[u8], answer: &[u8]) -> bool {
    match kind {
        b'w' | b'c' | b'f' | b'r' | b'b' | b'p' | b'o' => buffers::agrees(kind, request, answer),
        b'l' => blocks::look_up(request, answer),
        b'm' => lines::move_line(request, answer),
        b'u' => is(answer, &[text::well_formed(request) as u64], b""),
        b's' => is(answer, &[block::sound(request) as u64], b""),
        b'g' => is(answer, &blocks::of_answer(parser::measure(request)), b""),
        b'q' => is(answer, &stops::stop_figures(stops::stop(request)), b""),
        _ => leaves::read(kind, request, answer),
    }
}

// Takes a record of n bytes of request and its answer apart, and replays it.
fn replay(kind: u8, n: usize, record: &[u8]) -> bool {
    if record.len() < n {
        return false;
    }
    agrees(kind, lent::front(record, n), lent::rest(record, n))
}

// Reads one record and replays it: its kind, and whether the answers agreed; none where it broke off or is too long.
fn replay_next(file: &mut File) -> Option<(u8, bool)> {
    let mut head = [0u8; 9];
    file.read_exact(&mut head).ok()?;
    let [kind, n0, n1, n2, n3, m0, m1, m2, m3] = head;
    let n = u32::from_le_bytes([n0, n1, n2, n3]) as usize;
    let end = n + u32::from_le_bytes([m0, m1, m2, m3]) as usize;
    if 65536 < end {
        return None;
    }
    let mut record = [0u8; 65536];
    file.read_exact(&mut record[..end]).ok()?;
    Some((kind, replay(kind, n, lent::front(&record, end))))
}

// A proved loop has to end, and nothing says that a file does: so it has a number of turns that no run uses up.
fn replay_all(file: &mut File) -> Tally {
    let mut tally = Tally {
        asked: [0; 21],
        agreed: [0; 21],
    };
    for _ in 0..u64::MAX {
        let Some((kind, agrees)) = replay_next(file) else {
            break;
        };
        tally = tally.counted(place_of(kind), agrees);
    }
    tally
}

// A line of the tally: the kind, how many answers agree, and of how many. Unknown kinds are named only where there are any.
fn print_line(rt: &impl Print, place: usize, agreed: u64, asked: u64) -> io::Result<()> {
    if asked == 0 {
        return Ok(());
    }
    print_name(rt, place)?;
    println!(rt; ": {agreed} of {asked} agree")
}

fn print_tally(rt: &impl Print, tally: Tally) -> io::Result<()> {
    for i in 0..21 {
        print_line(rt, i, tally.agreed[i], tally.asked[i])?;
    }
    Ok(())
}

fn main(rt: HostRuntime) -> io::Result<()> {
    let mut file = File::open(&rt, "answers")?;
    print_tally(&rt, replay_all(&mut file))
}
