// What is replied to a line, but for a certificate line.
ghost use Rattle.std.specs.Prelude.{◌≡◌};
ghost use Rattle.scale.specs.Refusals.{told};
ghost use Rattle.lines.specs.Spoken.{acknowledged, refused};

use scale::fault::Fault;

// A refusal is told by its number and spot, and a reply may tell any.
#[derive(Clone, Copy, PartialEq, Eq, Debug)]
pub enum Reply {
    Done,
    Refused {
        number: u16,
        spot: usize,
    },
    At {
        net: i64,
    },
    AtBySource {
        conventional: i64,
        incentivised: i64,
    },
}

// The reply that tells a refusal.
impl From<Fault> for Reply {
    ghost from_gives = { λ fault reply. reply ≡ refused (told fault) };

    fn from(fault: Fault) -> Reply {
        Reply::Refused {
            number: fault.reason.number(),
            spot: fault.spot,
        }
    }
}

// The reply to a call that is accepted or refused, and tells no more.
impl From<Result<(), Fault>> for Reply {
    ghost from_gives = { λ answer reply. reply ≡ acknowledged answer };

    fn from(answer: Result<(), Fault>) -> Reply {
        match answer {
            Ok(()) => Reply::Done,
            Err(fault) => Reply::from(fault),
        }
    }
}
