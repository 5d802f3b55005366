// A block that is known to be sound: what asks for one has it without a test of its own.
ghost use Rattle.std.specs.Prelude.{◌≡◌, true};
ghost use Rattle.block.specs.Sound.{soundb};

// A block that is sound.   (01, The block: sound)
#[derive(Clone, Copy)]
pub struct SoundBlock<'a> {
    pub bytes: &'a [u8],
    pub ghost sound: { soundb bytes.now ≡ true },
}

impl<'a> SoundBlock<'a> {
    ghost use Rattle.block.specs.SoundBlocks.{sound_block};

    // The block, if it is sound.
    pub fn of(bytes: &'a [u8]) -> Option<SoundBlock<'a>>
        ensures { result ≡ sound_block bytes.entry }
    {
        if !crate::sound(bytes) {
            return None;
        }
        Some(SoundBlock { bytes })
    }
}
