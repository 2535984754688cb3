// The kinds of entry that are built. Their numbers add with wrap.
// BySource and Turnover have an impl each: names and number types differ, and the laws that they share stand once, in Wrap.

// The quantity of either source, sold less bought.
#[derive(Clone, Copy, Debug)]
pub struct Net {
    pub units: i64,
}

// The quantity of each source, sold less bought.
#[derive(Clone, Copy, Debug)]
pub struct BySource {
    pub conventional: i64,
    pub incentivised: i64,
}

// What was sold and what was bought, which no entry takes back.
#[derive(Clone, Copy, Debug, Default)]
pub struct Turnover {
    pub sold: u64,
    pub bought: u64,
}
