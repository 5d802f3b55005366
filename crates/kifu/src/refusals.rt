// The sentence of each refusal, with its figures.   (01, Numbers of refusal)
use crate::notes::{Kind, Streams, put_error, say_error};
use crate::passes::Walk;
use crate::{notes, passes};
use jkf::Figures;
use stops::{Astray, StopAnswer};
use text::Cursor;

// The end of a refusal: its number.
pub(crate) fn end(rt: &impl Streams, number: u64) {
    say_error(rt, b" (refusal %)\n", &[number]);
}

// A count that cannot be written, of a side and of a kind, in the order of the hands: rows of six and of eight bytes.
fn say_hand(rt: &impl Streams, side: u64, kind: u64) {
    let color = 6 * (side.min(1) as usize);
    let piece = 8 * (kind.min(6) as usize);
    put_error(rt, shown::table_text(b"\x05Black\x05White", color));
    put_error(rt, b" has more than 99 ");
    put_error(
        rt,
        shown::table_text(
            b"\x05pawns  \
              \x06lances \
              \x07knights\
              \x07silvers\
              \x05golds  \
              \x07bishops\
              \x05rooks  ",
            piece,
        ),
    );
    put_error(rt, b" in hand, which no text can say");
}

// The sentence of a refusal: those of 6, 8 and from 15 to 17 are made elsewhere, and that of 20 is the last.
fn sentence(number: u64) -> &'static [u8] {
    match number {
        0 | 6 | 8 => b"",
        1 => b"the file has more than 65535 bytes, which are the most that can be read",
        2 =>
            b"line %: this is no UTF-8 text (byte %); if it is Shift_JIS, as many KIF files are, this makes a file that can be read: iconv -f CP932 -t UTF-8 FILE >NEW",
        3 =>
            b"line %: the pieces in hand cannot be read (byte %); they are written as \xe9\xa3\x9b\xe3\x80\x80\xe6\xad\xa9\xe4\xba\x8c, and \xe3\x81\xaa\xe3\x81\x97 for none",
        4 => b"the record is too large: its block would have % bytes, and 65535 are the most",
        5 => b"the result has % bytes, and there is no room",
        7 => b"this is no block file, or a damaged one; kifu block makes one of a KIF file",
        9 =>
            b"line of play %, entry %: this cannot be written as text: its square is off the board, or its time has no room beside it",
        10 => b"there is no line of play %; kifu list or block-list shows which there are",
        11 => b"the text is not one variation",
        12 => b"line of play % has no move % to put a variation at",
        13 =>
            b"line of play %, move %: a variation stands there already, and a text has room for one; put the other into that variation's line, which kifu tree shows, or both into a block (kifu restate)",
        _ =>
            b"line of play % begins at move 0, which no text can say; --plain writes the text without it and without the lines after it",
    }
}

// That sentence with its figures.
fn say_refusal(rt: &impl Streams, f: Figures) {
    if f.number == 8 {
        say_hand(rt, f.first, f.second);
    } else {
        say_error(rt, sentence(f.number), &[f.first, f.second]);
    }
}

// Says in a line why a file was refused, in the words of one refusal and with the number of another.
fn tell_as(rt: &impl Streams, name: &[u8], f: Figures, number: u64) {
    notes::head(rt, Kind::Refused, name);
    say_refusal(rt, f);
    end(rt, number);
}

// Says in a line why a file was refused.
pub(crate) fn tell(rt: &impl Streams, name: &[u8], f: Figures) {
    tell_as(rt, name, f, f.number);
}

// Says in a line why a text was refused, by a place in it: its line, and the byte; in the words of one refusal and with the number of another.
pub(crate) fn tell_at(
    rt: &impl Streams,
    name: &[u8],
    text: &[u8],
    words: u64,
    at: u64,
    number: u64,
) {
    tell_as(
        rt,
        name,
        Figures {
            number: words,
            first: stops::line_column(text, at as usize).line,
            second: at,
        },
        number,
    );
}

// Where the line stands that ends the moves before a walk's end: the first behind them that is none of the usual ones; else an empty one, behind 手数 or
// まで if they stand there.
fn strange_line(text: &[u8], w: Walk) -> usize {
    let run = w.run;
    if let Some(first) = w.first {
        if run <= first && !passes::is_move(text, first) {
            return first;
        }
    }
    if !passes::is_plain(text, run) {
        return run;
    }
    let Some(next) = (Cursor { at: run }).line_end(text) else {
        return run;
    };
    next.at
}

// Whether a line is empty.
fn is_empty_line(text: &[u8], at: usize) -> bool {
    (Cursor { at }).line_ending(text).is_some()
}

// Says in a line that moves hang nowhere: behind 変化 or, which is the usual cause, behind a line that was not understood.
fn tell_astray(rt: &impl Streams, name: &[u8], text: &[u8], a: Astray) {
    let w = passes::walked(text, passes::before_moves(text).next, a.at as usize);
    let line = stops::line_column(text, a.at as usize).line;
    notes::head(rt, Kind::Refused, name);
    if w.is_led && 0 < a.last {
        say_error(
            rt,
            b"the variation in line % begins at move %, but line of play %, on which it would hang, has moves % to % only",
            &[line, a.ply, a.parent, a.first, a.last],
        );
        end(rt, 6);
        return;
    }
    let at = strange_line(text, w);
    let words: &[u8] = if is_empty_line(text, at) {
        b"take out line %, which is empty: "
    } else {
        b"look at line %, which is no move, no comment and no header line: "
    };
    say_error(rt, words, &[stops::line_column(text, at).line]);
    say_error(
        rt,
        b"by it the moves from line % on are taken for a variation that begins at move %, and hang nowhere",
        &[line, a.ply],
    );
    end(rt, 6);
}

// Says why reading stopped with a refusal.
pub(crate) fn tell_stop(rt: &impl Streams, name: &[u8], text: &[u8], stop: StopAnswer) {
    match stop {
        StopAnswer::TextTooLong(n) => tell_at(rt, name, text, 1, n, 1),
        StopAnswer::NotUtf8(n) => tell_at(rt, name, text, 2, n, 2),
        StopAnswer::HandLine(at) => tell_at(rt, name, text, 3, at, 3),
        StopAnswer::NoEntry(a) => tell_astray(rt, name, text, a),
        StopAnswer::Stopped(_, _, _) => (),
    }
}

// Says why reading into a block was refused. That the block would be too long is all that `stop`, which fills none, cannot tell.
pub(crate) fn tell_text(rt: &impl Streams, name: &[u8], text: &[u8], f: Figures) {
    if f.number == 4 {
        tell(rt, name, f);
        return;
    }
    tell_stop(rt, name, text, stops::stop(text));
}
