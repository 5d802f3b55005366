// The block: its rows both ways, whether one is sound, and its parts handed back.
#![tactic(auto)]

mod entries;
mod entry_bytes;
mod fields;
mod looks;
mod places;
mod position_bytes;
mod rows;
mod sound_block;
mod tables;
mod texts;
mod views;

ghost use Rattle.std.specs.Prelude.{◌≡◌};
ghost use Rattle.block.specs.Sound.{soundb};

pub use entry_bytes::{entry_in, put_entry_row};
pub use looks::{comment, entry, key, line, lines, parent, value};
pub use position_bytes::{position_in, put_position};
pub use rows::{put_comment_row, put_head, put_header_row, put_line_row};
pub use sound_block::SoundBlock;
pub use texts::is_same;
pub use views::{
    comment_count, comment_of, entry_count, entry_of, first_comment, first_entry, header_bytes,
    headers_in, key_in, key_of, lines_in, moves_in, parent_of, position_of, row_of, start_of,
    texts_of, value_in, value_of, version_in,
};

// Whether a slice is just a sound block.
pub fn sound(b: &[u8]) -> bool
    ensures { result ≡ soundb b.now }
{
    if !tables::head_sound(b) || !tables::parts_sound(b) {
        return false;
    }
    let headers = fields::header_total(b);
    tables::totals_sound(b, headers)
        && places::position_sound(b)
        && tables::texts_sound(b, headers)
        && places::lines_sound(b)
        && entries::entries_sound(b)
}
