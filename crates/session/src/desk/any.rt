// The desk of a session, on a board of one kind of entry or the other.
ghost use Rattle.std.specs.Prelude.{◌≡◌};
ghost use Rattle.scale.specs.Refusals.{refusal_of};
ghost use Rattle.session.specs.Closing.{is_idle, taken_at};
ghost use Rattle.session.specs.Seen.{seen_opened, stage_of};
ghost use Rattle.session.specs.Steps.{Opens};

use super::Desk;
use crate::kind::BoardKind;
use entry::kinds::{BySource, Net};
use scale::fault::Fault;

pub enum AnyDesk {
    Net(Desk<Net>),
    BySource(Desk<BySource>),
}

impl AnyDesk {
    // Opens a month with the kind of entry that has the number.
    pub(crate) fn open(kind: u16, agents: u16, hours: u16, size: u16) -> Result<AnyDesk, Fault>
        ensures { Opens kind agents hours size (refusal_of result) (seen_opened result) }
    {
        match BoardKind::try_from(kind)? {
            BoardKind::Net => Ok(AnyDesk::Net(Desk::open(agents, hours, size)?)),
            BoardKind::BySource => Ok(AnyDesk::BySource(Desk::open(agents, hours, size)?)),
        }
    }

    pub(crate) fn is_idle(&self) -> bool
        ensures { result ≡ is_idle (stage_of self.now) }
    {
        match self {
            AnyDesk::Net(desk) => desk.is_idle(),
            AnyDesk::BySource(desk) => desk.is_idle(),
        }
    }

    // Puts the month away for good, and answers how many places it had taken.
    pub(crate) fn discard(self) -> u16
        ensures { result ≡ taken_at (stage_of self) }
    {
        match self {
            AnyDesk::Net(desk) => desk.discard(),
            AnyDesk::BySource(desk) => desk.discard(),
        }
    }
}
