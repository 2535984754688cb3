// How often each refusal was met.
use crate::order::{Call, Order};
use crate::told::Told;

// Refusals have the numbers 1 to 17.
const NUMBERS: usize = 18;

// Spots above 9 are counted as 9; no script here meets one.
const SPOTS: usize = 10;

// The counts of one call, spot by spot for each number.
const OF_CALL: usize = NUMBERS * SPOTS;

const COUNTS: usize = OF_CALL * Call::ALL.len();

// The refusals of each call, in the order of `Call::ALL`. One array in place of a map, so that no refusal asks for memory.
#[derive(Drop)]
pub struct Tally {
    counts: [u32; COUNTS],
    calls: u32,
}

impl Tally {
    pub fn new() -> Tally {
        Tally {
            counts: [0; COUNTS],
            calls: 0,
        }
    }

    // Notes a call, and its refusal where the call has a name.
    pub fn note(&mut self, order: Order, told: Told) {
        self.calls = self.calls.wrapping_add(1);
        if let (Order::Call(call), Told::Refused { number, spot }) = (order, told) {
            let cell = usize::from(number)
                .wrapping_mul(SPOTS)
                .wrapping_add(spot.min(SPOTS - 1));
            let start = call.index().wrapping_mul(OF_CALL);
            if let Some(count) = self.counts.get_mut(start.wrapping_add(cell)) {
                *count = count.wrapping_add(1);
            }
        }
    }

    pub fn show(&self, rt: &HostRuntime) -> anyhow::Result<()> {
        let mut met: u32 = 0;
        for (call, counts) in Call::ALL.iter().zip(self.counts.chunks_exact(OF_CALL)) {
            for (number, counts) in counts.chunks_exact(SPOTS).enumerate() {
                for (spot, count) in counts.iter().enumerate() {
                    if *count > 0 {
                        println!(rt; "{call}: refused {number} at {spot}, {count} times")?;
                        met = met.wrapping_add(1);
                    }
                }
            }
        }
        let calls = self.calls;
        println!(rt;
            "{calls} calls were told what the script says, {met} different refusals among them"
        )?;
        Ok(())
    }
}
