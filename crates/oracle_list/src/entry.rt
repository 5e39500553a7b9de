// The entries of the list's files. Numbers are little-endian.
ghost use Rattle.std.specs.Prelude.{◌≡◌, ◌+◌, ◌*◌, slice_index};

// The lengths of the slices that calls get.
#[derive(Clone, Copy)]
pub struct Slices {
    // In words.
    pub work: usize,
    pub reply: usize,
    // Of levels alone.
    pub level_reply: usize,
}

impl From<[u8; 6]> for Slices {
    ghost from_gives = { λ x r.
        (r.work ≡ slice_index x 0 + slice_index x 1 * 256)
        × (r.reply ≡ slice_index x 2 + slice_index x 3 * 256)
        × (r.level_reply ≡ slice_index x 4 + slice_index x 5 * 256) };

    fn from(entry: [u8; 6]) -> Slices {
        let [w0, w1, r0, r1, l0, l1] = entry;
        Slices {
            work: u16::from_le_bytes([w0, w1]).into(),
            reply: u16::from_le_bytes([r0, r1]).into(),
            level_reply: u16::from_le_bytes([l0, l1]).into(),
        }
    }
}
