// Refusals: why a call was refused, and where.
ghost use Rattle.std.specs.Prelude.{◌≡◌};
ghost use Rattle.scale.specs.Refusals.{number_of};

// The reasons in the order of their numbers, which people at the site are told.
#[derive(Clone, Copy, PartialEq, Eq, Debug)]
pub enum Reason {
    WrongLength = 1,
    UnsoundBook = 2,
    SizeOutside = 3,
    FieldOutside = 4,
    SellerIsBuyer = 5,
    NumberTaken = 6,
    NoPlaceLeft = 7,
    NumberAbsent = 8,
    PartyNotAllowed = 9,
    StateUnfit = 10,
    ScaleLength = 11,
    ScaleWeightless = 12,
    ScaleHeavy = 13,
    PageShort = 14,
    SellerOverLimit = 15,
    ShortfallOverLimit = 16,
    LineUnreadable = 17,
}

// A refusal: its reason, and the spot that the reason speaks of (a place, an hour, a field, or 0).
#[derive(Clone, Copy, PartialEq, Eq, Debug)]
pub struct Fault {
    pub reason: Reason,
    pub spot: usize,
}

impl Reason {
    // The number that people are told. A method, since its name says at each use what a conversion would not.
    pub fn number(self) -> u16
        ensures { result ≡ number_of self }
    {
        self as u16
    }
}
