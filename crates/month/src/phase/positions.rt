// Positions: the entries of the board, which need no other memory.
ghost use Rattle.std.specs.Prelude.{◌≡◌, ◌≤◌, suc, length, get_or, IfOk, slice_index_or};
ghost use Rattle.scale.specs.Refusals.{refusal_of, unless};
ghost use Rattle.entry.specs.Kinds.{joins_in, meaning, up_to, values};
ghost use Rattle.book.specs.Limits.{between};
ghost use Rattle.ledger.specs.Checks.{balance_refusal, position_refusal};
ghost use Rattle.ledger.specs.Past.{ledger, position_in};
ghost use Rattle.month.specs.Questions.{entry_index, InEveryLife};

use super::Month;
use crate::lengths::check_board;
use book::limit::limit;
use entry::joining::Joining;
use entry::reversible::Reversible;
use entry::total::total;
use ledger::counted::Counted;
use scale::fault::{Fault, Reason};

// Refuses a submarket that there is not. Calls have it as different fields.
fn check_submarket(submarket: u16, field: usize) -> Result<(), Fault>
    ensures { refusal_of result ≡ unless (between 1 4 submarket) 4 field }
{
    limit(u32::from(submarket), 1, 4, Reason::FieldOutside, field)
}

impl<P> Month<P> {
    // Where the entry of an agent at a submarket and hour, all from 1, stands on the board. The board has this
    // formula of its own, over deals: here agents and submarkets come from a call.
    fn index_of(&self, agent: u16, submarket: u16, hour: u16) -> usize
        requires agent { 1 ≤ agent }
        requires submarket { 1 ≤ submarket }
        requires hour { 1 ≤ hour }
        ensures { result ≡ entry_index self.now.sizes agent submarket hour }
    {
        let lane = (usize::from(agent) - 1) * 4 + (usize::from(submarket) - 1);
        lane * usize::from(self.sizes.hours()) + (usize::from(hour) - 1)
    }

    // The board's entry of an agent at a submarket and hour. Apart from the calls that answer it, which add what holds in every
    // life: in one function each way out would have to show it.
    fn entry_at<E: Joining>(
        &self,
        board: &[E],
        agent: u16,
        submarket: u16,
        hour: u16,
    ) -> Result<E, Fault>
        ensures answer { refusal_of result ≡ position_refusal self.now.sizes (length board.now) agent submarket hour }
        ensures entry { IfOk result (λ e. e ≡ slice_index_or board.now (entry_index self.now.sizes agent submarket hour) e) }
    {
        check_board(&self.sizes, board.len())?;
        self.check_agent(agent)?;
        check_submarket(submarket, 2)?;
        self.check_hour(hour, 3)?;
        Ok(board[self.index_of(agent, submarket, hour)])
    }

    // The entries of all agents at a submarket and hour, joined by the total that serves every joining kind; apart from `balance`
    // for the same reason.
    fn joined_at<E: Joining>(&self, board: &[E], submarket: u16, hour: u16) -> Result<E, Fault>
        ensures answer { refusal_of result ≡ balance_refusal self.now.sizes (length board.now) submarket hour }
        ensures joined { IfOk result (λ e. E.Joining.value e ≡ up_to (joins_in E.Joining) self.now.sizes.agents
            (λ a. get_or (values E.Joining board.now) (entry_index self.now.sizes (suc a) submarket hour) E.Joining.nothing)) }
    {
        check_board(&self.sizes, board.len())?;
        check_submarket(submarket, 1)?;
        self.check_hour(hour, 2)?;
        let first = self.index_of(1, submarket, hour);
        let hours = usize::from(self.sizes.hours());
        let agents = usize::from(self.sizes.agents());
        Ok(total(board, first, 4 * hours, agents))
    }

    // An agent's position: the board's entry at a submarket and hour. In every life it means the ledger's position.
    pub fn position<E: Reversible>(
        &self,
        board: &[E],
        agent: u16,
        submarket: u16,
        hour: u16,
    ) -> Result<E, Fault>
        ensures answer { refusal_of result ≡ position_refusal self.now.sizes (length board.now) agent submarket hour }
        ensures entry { IfOk result (λ e. e ≡ slice_index_or board.now (entry_index self.now.sizes agent submarket hour) e) }
        ensures lived { IfOk result (λ e. InEveryLife (meaning E.Joining E.Reversible.own) self.now.sizes (values E.Joining board.now)
            (λ past. E.Joining.value e ≡ position_in (meaning E.Joining E.Reversible.own) (ledger past) agent submarket hour)) }
    {
        self.entry_at(board, agent, submarket, hour)
    }

    // The entries of all agents at a submarket and hour, joined. In every life they cancel.
    pub fn balance<E: Reversible>(&self, board: &[E], submarket: u16, hour: u16) -> Result<E, Fault>
        ensures answer { refusal_of result ≡ balance_refusal self.now.sizes (length board.now) submarket hour }
        ensures joined { IfOk result (λ e. E.Joining.value e ≡ up_to (joins_in E.Joining) self.now.sizes.agents
            (λ a. get_or (values E.Joining board.now) (entry_index self.now.sizes (suc a) submarket hour) E.Joining.nothing)) }
        ensures lived { IfOk result (λ e. InEveryLife (meaning E.Joining E.Reversible.own) self.now.sizes (values E.Joining board.now)
            (λ past. E.Joining.value e ≡ E.Joining.nothing)) }
    {
        self.joined_at(board, submarket, hour)
    }

    // A position as the numbers of its entry. In every life they are the true differences of what the agent sold and bought
    // there: nothing wraps.
    pub fn true_position<E: Counted>(
        &self,
        board: &[E],
        agent: u16,
        submarket: u16,
        hour: u16,
    ) -> Result<E, Fault>
        ensures answer { refusal_of result ≡ position_refusal self.now.sizes (length board.now) agent submarket hour }
        ensures entry { IfOk result (λ e. e ≡ slice_index_or board.now (entry_index self.now.sizes agent submarket hour) e) }
        ensures lived { IfOk result (λ e. InEveryLife (meaning E.Joining E.Reversible.own) self.now.sizes (values E.Joining board.now)
            (λ past. e ≡ E.difference (ledger past) agent submarket hour)) }
    {
        let entry = self.entry_at(board, agent, submarket, hour)?;
        Ok(entry.exact())
    }
}
