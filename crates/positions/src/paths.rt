// The play along the path to an entry: the parent's entries before the one that a line hangs on are played first, by a call of itself.
ghost use Rattle.std.specs.Prelude.{◌≡◌, ◌+◌, ◌≤◌, ◌<◌, length};
ghost use Rattle.block.specs.PositionBytes.{position_in};
ghost use Rattle.block.specs.Decode.{run, lines_in, first_entry, entry_count};
ghost use Rattle.positions.specs.Steps.{stepped};
ghost use Rattle.positions.specs.Paths.{entry_place, hang_entry, path_to, step_on, play_one, play_all, trail_of, course_of, at_start, course_answer, not_played, position_after, position_put};

use crate::steps::play_step;
use crate::{After, Course, Trail, starts};
use block::SoundBlock;
use jkf::{Answer, Entry, Move, Position};

// A move played on.
fn play_move(w: Course, k: usize, i: usize, m: Move) -> Course
    ensures { result ≡ step_on (stepped w.position w.last m) k i }
{
    let s = play_step(w.position, w.last, m);
    let how = s.how;
    let position = s.position;
    Course {
        how,
        line: k,
        entry: i,
        last: s.last,
        position,
    }
}

// Entry i of line k played on.
fn play_one(b: &[u8], k: u16, i: usize, w: Course) -> Course
    requires { first_entry b.now k + i < 65536 }
    ensures { result ≡ play_one b.now k i w }
{
    let how = w.how;
    let None = how else {
        return w;
    };
    let row = block::first_entry(b, k) + i;
    match block::entry_of(b, row as u16) {
        Entry::Slot => w,
        Entry::Moved(m) => play_move(w, k as usize, i, m),
        Entry::End(_, _) => w,
    }
}

// The first n entries of line k.
fn play_line(b: &[u8], k: u16, n: usize, before: Course) -> Course
    requires { first_entry b.now k + n ≤ 65536 }
    ensures { result ≡ play_all b.now (run (entry_place k) 0 n) before }
{
    let mut w = before;
    for i in 0..n {
        w = play_one(b, k, i, w);
    }
    w
}

// The entry of its parent that line k hangs on.
fn hang_entry(b: &[u8], k: u16) -> usize
    ensures { result ≡ hang_entry b.now k }
{
    let p = block::parent_of(b, k);
    let s = block::start_of(b, k);
    let t = block::start_of(b, p as u16);
    s.saturating_sub(t)
}

// A course from its parts, and all of it but the position.
fn course_of(l: Trail, position: Position) -> Course
    ensures { result ≡ course_of l position }
{
    let how = l.how;
    Course {
        how,
        line: l.line,
        entry: l.entry,
        last: l.last,
        position,
    }
}

fn trail_of(c: Course) -> Trail
    ensures { result ≡ trail_of c }
{
    let how = c.how;
    Trail {
        how,
        line: c.line,
        entry: c.entry,
        last: c.last,
    }
}

// The first n entries of line k, on the position that stands in the room.
fn play_in(b: &[u8], k: u16, n: usize, l: Trail, room: &mut [u8]) -> Trail
    requires { (first_entry b.now k + n ≤ 65536) × (100 ≤ length room.old) }
    ensures { course_of result (position_in room.new) ≡ play_all b.now (run (entry_place k) 0 n) (course_of l (position_in room.old)) }
{
    let c = play_line(b, k, n, course_of(l, block::position_in(room)));
    let position = c.position;
    block::put_position(room, 0, position);
    trail_of(c)
}

// The path through the first n entries of line k. The position stands in the room, so that a call of this is small.
fn play_to(b: SoundBlock, k: u16, n: usize, l: Trail, room: &mut [u8]) -> Trail
    requires { (k < lines_in b.bytes.now) × (n ≤ entry_count b.bytes.now k) × (100 ≤ length room.old) }
    ensures { course_of result (position_in room.new) ≡ play_all b.entry.bytes.now (path_to b.entry.bytes.now k n) (course_of l (position_in room.old)) }
{
    let p = block::parent_of(b.bytes, k);
    if p < k as usize {
        let before = play_to(b, p as u16, hang_entry(b.bytes, k), l, room);
        return play_in(b.bytes, k, n, before, room);
    }
    play_in(b.bytes, k, n, l, room)
}

// The whole path, from a position on.
fn play_from(b: SoundBlock, k: u16, n: usize, start: Position) -> Course
    requires { (k < lines_in b.bytes.now) × (n ≤ entry_count b.bytes.now k) × (length start.cells ≡ 81) × (length start.hands ≡ 14) }
    ensures { result ≡ play_all b.entry.bytes.now (path_to b.entry.bytes.now k n) (at_start start) }
{
    let mut room = [0u8; 100];
    block::put_position(&mut room, 0, start);
    let l = play_to(b, k, n, starts::no_trail(), &mut room);
    course_of(l, block::position_in(&room))
}

fn course_answer(c: Course) -> After
    ensures { result ≡ course_answer c }
{
    let how = c.how;
    let trail = trail_of(c);
    let None = how else {
        return After {
            answer: Answer::PlayStopped(c.line as u64, c.entry as u64),
            trail,
            position: starts::no_position(),
        };
    };
    let position = c.position;
    After {
        answer: Answer::Done(100, position.turn as u64),
        trail,
        position,
    }
}

fn not_played(answer: Answer) -> After
    ensures { result ≡ not_played answer }
{
    After {
        answer,
        trail: starts::no_trail(),
        position: starts::no_position(),
    }
}

// The position after an entry of a line.
pub fn position_after(b: &[u8], line: u64, entry: u64) -> After
    ensures { result ≡ position_after b.now line entry }
{
    let Some(sound) = SoundBlock::of(b) else {
        return not_played(Answer::NotSound);
    };
    if block::lines_in(b) as u64 <= line {
        return not_played(Answer::NoSuchPart(line));
    }
    let p = block::position_of(b);
    if !starts::has_start(p) {
        return not_played(Answer::NoStart(p.preset as u64));
    }
    let k = line as u16;
    if block::entry_count(b, k) as u64 <= entry {
        return not_played(Answer::NoSuchEntry(line, entry));
    }
    course_answer(play_from(sound, k, entry as usize + 1, starts::start_on(p)))
}

// The same, its 100 bytes put at the front of a lent buffer.
pub fn store_position(b: &[u8], line: u64, entry: u64, out: &mut [u8]) -> Answer
    ensures value { result ≡ (position_put b.now line entry out.old).answer }
    ensures out_after { out.new ≡ (position_put b.now line entry out.old).buffer }
{
    let a = position_after(b, line, entry);
    let answer = a.answer;
    if jkf::Figures::from(answer).number != 0 {
        return answer;
    }
    if out.len() < 100 {
        return Answer::BufferShort(100);
    }
    let position = a.position;
    block::put_position(out, 0, position);
    answer
}
