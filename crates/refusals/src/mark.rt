// A mark of numbers.
use book::contract::Contract;

// Stands for all the numbers that it took in, one after the other: a change of one changes the mark. Memories are compared by their
// marks, since a copy to compare with would ask for as much memory as they take.
#[derive(Clone, Copy, PartialEq, Eq, Debug)]
pub struct Mark(u64);

impl Mark {
    pub const START: Mark = Mark(1);

    // The mark once one number more is taken in.
    pub fn with<N: Into<u64>>(self, number: N) -> Mark {
        let mixed = self.0.wrapping_mul(0x9e37_79b9_7f4a_7c15);
        Mark(mixed.wrapping_add(number.into()))
    }

    // The mark once a contract is taken in, by the mark of its own numbers.
    pub fn with_contract(self, contract: &Contract) -> Mark {
        let terms = contract.terms.fields();
        let own = Mark(u64::from(terms.number))
            .with(terms.seller)
            .with(terms.buyer)
            .with(terms.submarket)
            .with(terms.class)
            .with(terms.source)
            .with(terms.first)
            .with(terms.last)
            .with(terms.amount)
            .with(contract.effective)
            .with(contract.state as u8);
        self.with(own.0)
    }
}
