// Questions on the session's month. They change nothing but the page.
ghost use Rattle.entry.specs.Kinds.{meaning};
ghost use Rattle.session.specs.Held.{held_of};
ghost use Rattle.session.specs.Questions.{showing_of, PositionAsked, CertificateAsked};

use super::Desk;
use super::calls::OUT_OF_TURN;
use crate::shown::Shown;
use crate::stage::Stage;
use lines::reply::Reply;
use lines::say::ROOM;
use month::memories::Memories;
use scale::fault::Fault;

impl<E: Shown> Desk<E> {
    // The reply that tells a position. An open month and a closed one are of two types, so each has its arm.
    pub(crate) fn position(&self, agent: u16, submarket: u16, hour: u16) -> Result<Reply, Fault>
        ensures { PositionAsked (meaning E.Joining E.Reversible.own) (showing_of E.Joining E.Shown.own) agent submarket hour (held_of E.Joining self.now) result }
    {
        let board = &self.board[..self.lengths.entries];
        match &self.stage {
            Stage::Idle => Err(OUT_OF_TURN),
            Stage::Open(month) => E::position(month, board, agent, submarket, hour),
            Stage::Closed(month) => E::position(month, board, agent, submarket, hour),
        }
    }

    // Writes a certificate line to the front of the page.
    pub(crate) fn certificate(&self, agent: u16, page: &mut [u8; ROOM]) -> Result<usize, Fault>
        ensures { CertificateAsked agent (held_of E.Joining self.now) page.old page.new result }
    {
        let used = self.lengths;
        let memories = Memories {
            places: &self.places[..used.places],
            rows: &self.rows[..used.rows],
            shortfalls: &self.shortfalls[..used.shortfalls],
            board: &self.board[..used.entries],
        };
        match &self.stage {
            Stage::Closed(month) => month.certificate(memories, agent, page),
            _ => Err(OUT_OF_TURN),
        }
    }
}
