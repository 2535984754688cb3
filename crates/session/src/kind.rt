// The kinds of entry that a month can be opened with.
ghost use Rattle.std.specs.Prelude.{◌≡◌};
ghost use Rattle.scale.specs.Refusals.{told};
ghost use Rattle.session.specs.Kinds.{IsKindOf};
ghost use Rattle.session.specs.Turns.{unfit};

use crate::desk::calls::OUT_OF_TURN;
use scale::fault::Fault;

// The kinds by their numbers, which a line names them by.
#[derive(Clone, Copy, PartialEq, Eq, Debug)]
pub enum BoardKind {
    Net = 0,
    BySource = 1,
}

// A number that no kind has.
#[derive(Clone, Copy, PartialEq, Eq, Debug)]
pub struct UnknownKind(pub u16);

impl TryFrom<u16> for BoardKind {
    type Error = UnknownKind;

    ghost try_from_gives = { IsKindOf };

    fn try_from(number: u16) -> Result<BoardKind, UnknownKind> {
        match number {
            0 => Ok(BoardKind::Net),
            1 => Ok(BoardKind::BySource),
            _ => Err(UnknownKind(number)),
        }
    }
}

// A line that names no kind is not one that can be read.
impl From<UnknownKind> for Fault {
    ghost from_gives = { λ _ fault. told fault ≡ unfit };

    fn from(_unknown: UnknownKind) -> Fault {
        OUT_OF_TURN
    }
}
