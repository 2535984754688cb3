// What a call is told.
use scale::fault::Fault;
use std::fmt;

// A refusal is told by the number that people know it by, as the script writes it.
#[derive(Clone, Copy, PartialEq, Eq, Debug)]
pub enum Told {
    Passed,
    Refused { number: u16, spot: usize },
    // a refusal that moved something, which none may: a number and a spot that no refusal has
    Moved,
}

impl From<Fault> for Told {
    fn from(fault: Fault) -> Told {
        Told::Refused {
            number: fault.reason.number(),
            spot: fault.spot,
        }
    }
}

// A number and a spot, as the script writes them; zeros where a call passes.
impl From<(u16, usize)> for Told {
    fn from(told: (u16, usize)) -> Told {
        match told {
            (0, 0) => Told::Passed,
            (99, 99) => Told::Moved,
            (number, spot) => Told::Refused { number, spot },
        }
    }
}

impl fmt::Display for Told {
    fn fmt<W: fmt::Write>(&self, f: &mut fmt::Formatter<W>) -> fmt::Result {
        match self {
            Told::Passed => write!(f, "0 0"),
            Told::Refused { number, spot } => write!(f, "{number} {spot}"),
            Told::Moved => write!(f, "99 99"),
        }
    }
}
