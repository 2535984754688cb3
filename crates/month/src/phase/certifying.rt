// Certificate lines, which only a closed month writes.
ghost use Rattle.std.specs.Prelude.{◌≡◌, length, IfOk, MatchResult};
ghost use Rattle.page.specs.Page.{Fronted};
ghost use Rattle.scale.specs.Refusals.{refusal_of};
ghost use Rattle.ledger.specs.Checks.{certificate_refusal};
ghost use Rattle.ledger.specs.Past.{ledger};
ghost use Rattle.ledger.specs.Turnovers.{amount_sold, amount_bought, OfEveryLife};
ghost use Rattle.month.specs.Line.{certificate_line};
ghost use Rattle.month.specs.Months.{lent};
ghost use Rattle.month.specs.Questions.{certified};

use super::{Closed, Month};
use crate::line::put_line;
use crate::memories::Memories;
use entry::joining::Joining;
use scale::fault::{Fault, Reason};

// The least page that every certificate line fits.
const PAGE: usize = 64;

impl Month<Closed> {
    // Writes an agent's certificate line to the front of a page, whose rest stays, and answers the line's length in bytes.
    // In every life it certifies what the ledger says that the agent sold and bought.
    pub fn certificate<E: Joining>(
        &self,
        memories: Memories<'_, E>,
        agent: u16,
        page: &mut [u8],
    ) -> Result<usize, Fault>
        ensures answer { refusal_of result ≡ certificate_refusal (lent E.Joining self.now memories.entry) agent (length page.old) }
        ensures line { MatchResult result
            (λ n. Fronted (certified (lent E.Joining self.now memories.entry) agent) page.old page.new n)
            (λ _. page.new ≡ page.old) }
        ensures lived { IfOk result (λ n. OfEveryLife (lent E.Joining self.now memories.entry)
            (λ past. Fronted (certificate_line agent (amount_sold (ledger past) agent) (amount_bought (ledger past) agent)) page.old page.new n)) }
    {
        let (sold, bought) = self.turnover(memories, agent)?;
        if page.len() < PAGE {
            return Err(Fault {
                reason: Reason::PageShort,
                spot: 0,
            });
        }
        Ok(put_line(page, agent, sold, bought))
    }
}
