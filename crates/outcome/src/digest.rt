ghost use Rattle.std.specs.Prelude.{◌≡◌, take, drop};
ghost use Rattle.std.specs.Int.{from_le_bytes, w32};

// The two sums by which the fixed list keeps a reply (docs/ORACLE.md).
#[derive(Clone, Copy, Debug, PartialEq, Eq)]
pub struct Sums {
    pub first: u32,
    pub second: u32,
}

// As an entry of the list has them, little-endian.
impl From<[u8; 8]> for Sums {
    ghost from_gives = { λ x r.
        (r.first ≡ from_le_bytes w32 (take 4 x)) × (r.second ≡ from_le_bytes w32 (drop 4 x)) };

    fn from(entry: [u8; 8]) -> Sums {
        let [f0, f1, f2, f3, s0, s1, s2, s3] = entry;
        Sums {
            first: u32::from_le_bytes([f0, f1, f2, f3]),
            second: u32::from_le_bytes([s0, s1, s2, s3]),
        }
    }
}

impl Sums {
    // Both in one pass.
    pub(crate) fn of(bytes: &[u8]) -> Sums {
        let start = Sums {
            first: 2166136261,
            second: 2166136261,
        };
        bytes.iter().fold(start, |sums, byte| sums.with(*byte))
    }

    fn with(self, byte: u8) -> Sums {
        Sums {
            first: sum_with(self.first, 16777619, byte),
            second: sum_with(self.second, 22695477, byte),
        }
    }
}

// Modulo 2^32.
fn sum_with(sum: u32, times: u32, byte: u8) -> u32 {
    sum.wrapping_mul(times)
        .wrapping_add(u32::from(byte))
        .wrapping_add(1)
}
