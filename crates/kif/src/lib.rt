// The C surface: the library's calls under fixed names. A slice is a pointer and a length, a lent number a pointer.
#![tactic(auto)]

ghost use Rattle.std.specs.Prelude.{◌≡◌, [], ◌∷◌};
ghost use Rattle.block.specs.Decode.{headers_in, comments_in, key_offset, key_length, value_offset, value_length, comment_offset, comment_length};
ghost use Rattle.block.specs.Sound.{soundb};
ghost use Rattle.block.specs.Look.{look_answer, Answered, lines_answer, line_answer, parent_answer, entry_answer};
ghost use Rattle.parser.specs.Read.{measure_of, fill_of, lost_of};
ghost use Rattle.stops.specs.Stopping.{stop_of, stop_figures, spot_at};
ghost use Rattle.converter.specs.Writing.{write_as_of, write_of, mode_of};
ghost use Rattle.edit.specs.Outcomes.{put_in_of, cut_of, restate_of};
ghost use Rattle.positions.specs.Paths.{position_put};

// Whether a slice is just a sound block.
#[unsafe(no_mangle)]
pub extern "C" fn kif_sound(block: &[u8]) -> bool
    ensures { result ≡ soundb block.now }
{
    block::sound(block)
}

// Where comment k of a block stands, and how long it is.
#[unsafe(no_mangle)]
pub extern "C" fn kif_comment(
    block: &[u8],
    k: u64,
    number: &mut u64,
    first: &mut u64,
    second: &mut u64,
)
    ensures { Answered (look_answer block.now (comments_in block.now) k (comment_offset block.now k) (comment_length block.now k)) number.new first.new second.new }
{
    block::comment(block, k, number, first, second);
}

// Where the key of header entry k stands, and how long it is.
#[unsafe(no_mangle)]
pub extern "C" fn kif_key(block: &[u8], k: u64, number: &mut u64, first: &mut u64, second: &mut u64)
    ensures { Answered (look_answer block.now (headers_in block.now) k (key_offset block.now k) (key_length block.now k)) number.new first.new second.new }
{
    block::key(block, k, number, first, second);
}

// Where its value stands, and how long it is.
#[unsafe(no_mangle)]
pub extern "C" fn kif_value(
    block: &[u8],
    k: u64,
    number: &mut u64,
    first: &mut u64,
    second: &mut u64,
)
    ensures { Answered (look_answer block.now (headers_in block.now) k (value_offset block.now k) (value_length block.now k)) number.new first.new second.new }
{
    block::value(block, k, number, first, second);
}

// How many lines a block has.
#[unsafe(no_mangle)]
pub extern "C" fn kif_lines(block: &[u8], number: &mut u64, first: &mut u64, second: &mut u64)
    ensures { Answered (lines_answer block.now) number.new first.new second.new }
{
    let f = jkf::Figures::from(block::lines(block));
    *number = f.number;
    *first = f.first;
    *second = f.second;
}

// The start of line k, and how many entries it has.
#[unsafe(no_mangle)]
pub extern "C" fn kif_line(
    block: &[u8],
    k: u64,
    number: &mut u64,
    first: &mut u64,
    second: &mut u64,
)
    ensures { Answered (line_answer block.now k) number.new first.new second.new }
{
    let f = jkf::Figures::from(block::line(block, k));
    *number = f.number;
    *first = f.first;
    *second = f.second;
}

// The line that line k hangs on.
#[unsafe(no_mangle)]
pub extern "C" fn kif_parent(
    block: &[u8],
    k: u64,
    number: &mut u64,
    first: &mut u64,
    second: &mut u64,
)
    ensures { Answered (parent_answer block.now k) number.new first.new second.new }
{
    let f = jkf::Figures::from(block::parent(block, k));
    *number = f.number;
    *first = f.first;
    *second = f.second;
}

// Where the 20 bytes of an entry of a line stand.
#[unsafe(no_mangle)]
pub extern "C" fn kif_entry(
    block: &[u8],
    line: u64,
    entry: u64,
    number: &mut u64,
    first: &mut u64,
    second: &mut u64,
)
    ensures { Answered (entry_answer block.now line entry) number.new first.new second.new }
{
    let f = jkf::Figures::from(block::entry(block, line, entry));
    *number = f.number;
    *first = f.first;
    *second = f.second;
}

// How long the block of a text is, and how many bytes are taken.
#[unsafe(no_mangle)]
pub extern "C" fn kif_measure(text: &[u8], number: &mut u64, first: &mut u64, second: &mut u64)
    ensures { Answered (measure_of text.now) number.new first.new second.new }
{
    let f = jkf::Figures::from(parser::measure(text));
    *number = f.number;
    *first = f.first;
    *second = f.second;
}

// Reads a text into the front of a lent buffer, and tells how many times were lost.
#[unsafe(no_mangle)]
pub extern "C" fn kif_fill(
    text: &[u8],
    out: &mut [u8],
    number: &mut u64,
    first: &mut u64,
    second: &mut u64,
    lost: &mut u64,
)
    ensures answered { Answered (fill_of text.now out.old).answer number.new first.new second.new }
    ensures out_after { out.new ≡ (fill_of text.now out.old).buffer }
    ensures lost_after { lost.new ≡ lost_of text.now out.old }
{
    let r = parser::fill(text, out);
    let a = r.answer;
    let f = jkf::Figures::from(a);
    *number = f.number;
    *first = f.first;
    *second = f.second;
    *lost = r.lost;
}

// Where reading a text stops, and why.
#[unsafe(no_mangle)]
pub extern "C" fn kif_stop(
    text: &[u8],
    number: &mut u64,
    first: &mut u64,
    second: &mut u64,
    third: &mut u64,
    fourth: &mut u64,
    fifth: &mut u64,
    sixth: &mut u64,
)
    ensures { number.new ∷ first.new ∷ second.new ∷ third.new ∷ fourth.new ∷ fifth.new ∷ sixth.new ∷ [] ≡ stop_figures (stop_of text.now) }
{
    let f = stops::stop_figures(stops::stop(text));
    *number = f[0];
    *first = f[1];
    *second = f[2];
    *third = f[3];
    *fourth = f[4];
    *fifth = f[5];
    *sixth = f[6];
}

// The line and the column of a place of a text.
#[unsafe(no_mangle)]
pub extern "C" fn kif_spot(text: &[u8], at: u64, line: &mut u64, column: &mut u64)
    ensures line_after { line.new ≡ (spot_at text.now at).line }
    ensures column_after { column.new ≡ (spot_at text.now at).column }
{
    let x = stops::line_column(text, at as usize);
    *line = x.line;
    *column = x.column;
}

// Writes a block's text into the front of a lent buffer.
#[unsafe(no_mangle)]
pub extern "C" fn kif_write(
    block: &[u8],
    out: &mut [u8],
    number: &mut u64,
    first: &mut u64,
    second: &mut u64,
)
    ensures answered { Answered (write_of block.now out.old).answer number.new first.new second.new }
    ensures out_after { out.new ≡ (write_of block.now out.old).buffer }
{
    let f = jkf::Figures::from(converter::write(block, out));
    *number = f.number;
    *first = f.first;
    *second = f.second;
}

// Writes a block's text in the mode with a number: 1 loses nothing, 2 is read by other programs too, any other is 0.
#[unsafe(no_mangle)]
pub extern "C" fn kif_write_as(
    block: &[u8],
    mode: u64,
    out: &mut [u8],
    number: &mut u64,
    first: &mut u64,
    second: &mut u64,
)
    ensures answered { Answered (write_as_of (mode_of mode) block.now out.old).answer number.new first.new second.new }
    ensures out_after { out.new ≡ (write_as_of (mode_of mode) block.now out.old).buffer }
{
    let f = jkf::Figures::from(converter::write_as(block, converter::Mode::from(mode), out));
    *number = f.number;
    *first = f.first;
    *second = f.second;
}

// Puts one variation into a block: the edited block goes into the front of a lent buffer.
#[unsafe(no_mangle)]
pub extern "C" fn kif_put_in(
    block: &[u8],
    line: u64,
    text: &[u8],
    out: &mut [u8],
    number: &mut u64,
    first: &mut u64,
    second: &mut u64,
)
    ensures answered { Answered (put_in_of block.now line text.now out.old).answer number.new first.new second.new }
    ensures out_after { out.new ≡ (put_in_of block.now line text.now out.old).buffer }
{
    let f = jkf::Figures::from(edit::put_in(block, line, text, out));
    *number = f.number;
    *first = f.first;
    *second = f.second;
}

// Cuts a line out of a block with all that hangs from it: the edited block goes into the front of a lent buffer.
#[unsafe(no_mangle)]
pub extern "C" fn kif_cut(
    block: &[u8],
    line: u64,
    out: &mut [u8],
    number: &mut u64,
    first: &mut u64,
    second: &mut u64,
)
    ensures answered { Answered (cut_of block.now line out.old).answer number.new first.new second.new }
    ensures out_after { out.new ≡ (cut_of block.now line out.old).buffer }
{
    let f = jkf::Figures::from(edit::cut(block, line, out));
    *number = f.number;
    *first = f.first;
    *second = f.second;
}

// Restates a sound block of version 1 as version 2: it goes into the front of a lent buffer.
#[unsafe(no_mangle)]
pub extern "C" fn kif_restate(
    block: &[u8],
    out: &mut [u8],
    number: &mut u64,
    first: &mut u64,
    second: &mut u64,
)
    ensures answered { Answered (restate_of block.now out.old).answer number.new first.new second.new }
    ensures out_after { out.new ≡ (restate_of block.now out.old).buffer }
{
    let f = jkf::Figures::from(edit::restate(block, out));
    *number = f.number;
    *first = f.first;
    *second = f.second;
}

// The position after an entry of a line, as the 100 bytes that a block has for one.
#[unsafe(no_mangle)]
pub extern "C" fn kif_position(
    block: &[u8],
    line: u64,
    entry: u64,
    out: &mut [u8],
    number: &mut u64,
    first: &mut u64,
    second: &mut u64,
)
    ensures answered { Answered (position_put block.now line entry out.old).answer number.new first.new second.new }
    ensures out_after { out.new ≡ (position_put block.now line entry out.old).buffer }
{
    let f = jkf::Figures::from(positions::store_position(block, line, entry, out));
    *number = f.number;
    *first = f.first;
    *second = f.second;
}
