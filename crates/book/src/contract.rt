// The contract record.
ghost use Rattle.std.specs.Prelude.{◌≡◌};
ghost use Rattle.book.specs.Terms.{IsClassOf, class_number};

use entry::source::Source;

// A contract's number, unique in its month.
pub type Number = u16;

// The largest number that a contract can have.
pub const MOST_NUMBER: u32 = 65_535;

// The largest amount of a contract, in kWh.
pub const MOST_AMOUNT: u32 = 1_000_000_000;

// The most that a shortfall, or the amounts in force of one seller, can come to.
pub const MOST_TOTAL: u64 = 2_000_000_000;

// The most places that a book can have.
pub const MOST_PLACES: usize = 256;

// How a contract is cut when its seller falls short. The classes are cut in this order; the last never is.
#[derive(Clone, Copy, PartialEq, Eq, Debug)]
pub enum Class {
    // a free-market contract
    Free = 1,
    // a free-market contract whose buyer is a retail trader
    Retail = 2,
    // a regulated contract tied to no plant
    Regulated = 3,
    // a regulated contract tied to a plant
    Plant = 4,
}

// A number that no class has.
#[derive(Clone, Copy, PartialEq, Eq, Debug)]
pub struct UnknownClass(pub u16);

impl TryFrom<u16> for Class {
    type Error = UnknownClass;

    ghost try_from_gives = { IsClassOf };

    fn try_from(number: u16) -> Result<Class, UnknownClass> {
        match number {
            1 => Ok(Class::Free),
            2 => Ok(Class::Retail),
            3 => Ok(Class::Regulated),
            4 => Ok(Class::Plant),
            _ => Err(UnknownClass(number)),
        }
    }
}

impl From<Class> for u16 {
    ghost from_gives = { λ class number. number ≡ class_number class };

    fn from(class: Class) -> u16 {
        class as u16
    }
}

#[derive(Clone, Copy, PartialEq, Eq, Debug)]
pub enum State {
    Offered,
    InForce,
    Ended,
}

// What seller and buyer agree on, and what never changes after the offer. The submarket stays a number: a book that is handed
// in may hold any, and the rules give the four no names.
#[derive(Clone, Copy, PartialEq, Eq, Debug)]
pub struct Terms {
    pub number: Number,
    pub seller: u16,
    pub buyer: u16,
    pub submarket: u16,
    pub class: Class,
    pub source: Source,
    pub first: u16,
    pub last: u16,
    pub amount: u32,
}

// A contract at its place: its terms, what the cuts leave of its amount, and how far its life has come.
#[derive(Clone, Copy, PartialEq, Eq, Debug)]
pub struct Contract {
    pub terms: Terms,
    pub effective: u32,
    pub state: State,
}

// What stands where no contract does.
pub const BLANK: Contract = Contract {
    terms: Terms {
        number: 0,
        seller: 0,
        buyer: 0,
        submarket: 0,
        class: Class::Free,
        source: Source::Conventional,
        first: 0,
        last: 0,
        amount: 0,
    },
    effective: 0,
    state: State::Offered,
};

// An offer as it is called: the terms as plain numbers, of which nothing is known yet. Class and source stay numbers here too:
// an offer may name any, and is refused at the first field outside its limits, with that field's spot.
#[derive(Clone, Copy, PartialEq, Eq, Debug)]
pub struct Offer {
    pub number: Number,
    pub seller: u16,
    pub buyer: u16,
    pub submarket: u16,
    pub class: u16,
    pub source: u16,
    pub first: u16,
    pub last: u16,
    pub amount: u32,
}

// What a party brings about in a contract's life.
#[derive(Clone, Copy, PartialEq, Eq, Debug)]
pub enum Event {
    Confirmation,
    Ending,
}
