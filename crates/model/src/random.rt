// A small fixed generator, so that every run makes the same cases.

#[derive(Clone, Copy)]
pub struct Random {
    state: u64,
}

impl Random {
    pub fn new(seed: u64) -> Random {
        Random {
            state: seed.wrapping_add(0x9e37_79b9_7f4a_7c15),
        }
    }

    // The next number: a step of a counter, well mixed.
    pub fn next(&mut self) -> u64 {
        self.state = self.state.wrapping_add(0x9e37_79b9_7f4a_7c15);
        let a = (self.state ^ (self.state >> 30)).wrapping_mul(0xbf58_476d_1ce4_e5b9);
        let b = (a ^ (a >> 27)).wrapping_mul(0x94d0_49bb_1331_11eb);
        b ^ (b >> 31)
    }

    // A number from `low` to `high`, or `low` where those are reversed.
    pub fn between(&mut self, low: u32, high: u32) -> u32 {
        if high <= low {
            return low;
        }
        let width = u64::from(high - low) + 1;
        let step = self.next() % width;
        low.saturating_add(u32::try_from(step).unwrap_or(0))
    }

    // The same in 16 bits, by the one above: a bound over both types would be longer than this.
    pub fn among(&mut self, low: u16, high: u16) -> u16 {
        let number = self.between(u32::from(low), u32::from(high));
        u16::try_from(number).unwrap_or(low)
    }
}
