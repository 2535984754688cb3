// The month's calls on the session's memory.
ghost use Rattle.scale.specs.Refusals.{refusal_of};
ghost use Rattle.entry.specs.Kinds.{meaning};
ghost use Rattle.ledger.specs.Calls.{Offering, Confirming, Ending, Telling};
ghost use Rattle.ledger.specs.Past.{offering, confirming, ending, telling};
ghost use Rattle.session.specs.Held.{held_of, lent_to};
ghost use Rattle.session.specs.Turns.{Doing, Changes, Called, Confirms, evenly};

use super::{AGENTS, Desk, ENTRIES, Lengths, PLACES, ROWS};
use crate::stage::Stage;
use book::contract::{Contract, Number, Offer};
use entry::reversible::Reversible;
use month::phase::{Month, Open};
use scale::even::EvenScale;
use scale::fault::{Fault, Reason};

// What a line out of turn is refused with.
pub(crate) const OUT_OF_TURN: Fault = Fault {
    reason: Reason::LineUnreadable,
    spot: 0,
};

// Lends an open month the front of each memory for an offer. The memories come as parameters of four functions: where a desk
// lends the fronts of its own arrays beside its month, the check does not know afterwards what they hold.
fn offer_on<E: Reversible>(
    month: &mut Month<Open>,
    used: Lengths,
    places: &mut [Contract; PLACES],
    rows: &[u32; ROWS],
    shortfalls: &[u64; AGENTS],
    board: &[E; ENTRIES],
    offer: Offer,
) -> Result<(), Fault>
    ensures { Called (meaning E.Joining E.Reversible.own) (offering offer) (Offering offer)
        (lent_to E.Joining month.old used places.old rows.now shortfalls.now board.now)
        (refusal_of result)
        (lent_to E.Joining month.new used places.new rows.now shortfalls.now board.now) }
{
    month.offer(
        &mut places[..used.places],
        &rows[..used.rows],
        &shortfalls[..used.shortfalls],
        &board[..used.entries],
        offer,
    )
}

// The same for a confirmation on the even scale of the month's hours.
fn confirm_on<E: Reversible>(
    month: &Month<Open>,
    used: Lengths,
    places: &mut [Contract; PLACES],
    rows: &mut [u32; ROWS],
    shortfalls: &[u64; AGENTS],
    board: &mut [E; ENTRIES],
    number: Number,
    agent: u16,
) -> Result<(), Fault>
    ensures { Called (meaning E.Joining E.Reversible.own) (confirming number agent (evenly month.now.sizes))
        (Confirming (meaning E.Joining E.Reversible.own) number agent (evenly month.now.sizes))
        (lent_to E.Joining month.now used places.old rows.old shortfalls.now board.old)
        (refusal_of result)
        (lent_to E.Joining month.now used places.new rows.new shortfalls.now board.new) }
{
    let sizes = month.sizes();
    let even = EvenScale::new(sizes.hours() as usize);
    month.confirm(
        &mut places[..used.places],
        &mut rows[..used.rows],
        &shortfalls[..used.shortfalls],
        &mut board[..used.entries],
        number,
        agent,
        &even,
    )
}

// The same for an ending.
fn end_on<E: Reversible>(
    month: &Month<Open>,
    used: Lengths,
    places: &mut [Contract; PLACES],
    rows: &[u32; ROWS],
    shortfalls: &[u64; AGENTS],
    board: &mut [E; ENTRIES],
    number: Number,
    agent: u16,
) -> Result<(), Fault>
    ensures { Called (meaning E.Joining E.Reversible.own) (ending number agent) (Ending (meaning E.Joining E.Reversible.own) number agent)
        (lent_to E.Joining month.now used places.old rows.now shortfalls.now board.old)
        (refusal_of result)
        (lent_to E.Joining month.now used places.new rows.now shortfalls.now board.new) }
{
    month.end(
        &mut places[..used.places],
        &rows[..used.rows],
        &shortfalls[..used.shortfalls],
        &mut board[..used.entries],
        number,
        agent,
    )
}

// The same for a shortfall.
fn tell_on<E: Reversible>(
    month: &Month<Open>,
    used: Lengths,
    places: &mut [Contract; PLACES],
    rows: &[u32; ROWS],
    shortfalls: &mut [u64; AGENTS],
    board: &mut [E; ENTRIES],
    agent: u16,
    kwh: u64,
) -> Result<(), Fault>
    ensures { Called (meaning E.Joining E.Reversible.own) (telling agent kwh) (Telling (meaning E.Joining E.Reversible.own) agent kwh)
        (lent_to E.Joining month.now used places.old rows.now shortfalls.old board.old)
        (refusal_of result)
        (lent_to E.Joining month.now used places.new rows.now shortfalls.new board.new) }
{
    month.tell(
        &mut places[..used.places],
        &rows[..used.rows],
        &mut shortfalls[..used.shortfalls],
        &mut board[..used.entries],
        agent,
        kwh,
    )
}

impl<E: Reversible> Desk<E> {
    pub(crate) fn offer(&mut self, offer: Offer) -> Result<(), Fault>
        ensures { Doing (Changes (meaning E.Joining E.Reversible.own) (offering offer) (Offering offer))
            (held_of E.Joining self.old) (refusal_of result) (held_of E.Joining self.new) }
    {
        match &mut self.stage {
            Stage::Open(month) => offer_on(
                month,
                self.lengths,
                &mut self.places,
                &self.rows,
                &self.shortfalls,
                &self.board,
                offer,
            ),
            _ => Err(OUT_OF_TURN),
        }
    }

    pub(crate) fn confirm(&mut self, number: Number, agent: u16) -> Result<(), Fault>
        ensures { Doing (Confirms (meaning E.Joining E.Reversible.own) number agent)
            (held_of E.Joining self.old) (refusal_of result) (held_of E.Joining self.new) }
    {
        match &self.stage {
            Stage::Open(month) => confirm_on(
                month,
                self.lengths,
                &mut self.places,
                &mut self.rows,
                &self.shortfalls,
                &mut self.board,
                number,
                agent,
            ),
            _ => Err(OUT_OF_TURN),
        }
    }

    pub(crate) fn end(&mut self, number: Number, agent: u16) -> Result<(), Fault>
        ensures { Doing (Changes (meaning E.Joining E.Reversible.own) (ending number agent) (Ending (meaning E.Joining E.Reversible.own) number agent))
            (held_of E.Joining self.old) (refusal_of result) (held_of E.Joining self.new) }
    {
        match &self.stage {
            Stage::Open(month) => end_on(
                month,
                self.lengths,
                &mut self.places,
                &self.rows,
                &self.shortfalls,
                &mut self.board,
                number,
                agent,
            ),
            _ => Err(OUT_OF_TURN),
        }
    }

    pub(crate) fn tell(&mut self, agent: u16, kwh: u64) -> Result<(), Fault>
        ensures { Doing (Changes (meaning E.Joining E.Reversible.own) (telling agent kwh) (Telling (meaning E.Joining E.Reversible.own) agent kwh))
            (held_of E.Joining self.old) (refusal_of result) (held_of E.Joining self.new) }
    {
        match &self.stage {
            Stage::Open(month) => tell_on(
                month,
                self.lengths,
                &mut self.places,
                &self.rows,
                &mut self.shortfalls,
                &mut self.board,
                agent,
                kwh,
            ),
            _ => Err(OUT_OF_TURN),
        }
    }
}
