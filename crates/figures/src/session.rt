// The worked session and limits of the rules, with the numbers written out.
// Refusals stand here as a number and a spot too: that is what people are told.
use crate::drawn::disagrees;
use entry::kinds::Net;
use model::answers::{Refusal, refused};
use model::call::{Call, Named};
use month::phase::{Month, Open};
use std::alloc::{AllocError, Global};
use trial::making::{Shape, refusal_of};
use trial::staged::Staged;

const SEVEN: Named = Named {
    number: 7,
    seller: 1,
    buyer: 2,
    submarket: 1,
    class: 1,
    source: 0,
    first: 1,
    last: 4,
    amount: 10,
};

fn confirmation(heap: Global, number: u16) -> Result<Call, AllocError> {
    Ok(Call::Confirm {
        number,
        agent: 2,
        weights: vec![in heap; 1u32; 4]?,
    })
}

// An offer of an amount by agent 1 to agent 2.
fn offer(number: u16, amount: u32) -> Call {
    Call::Offer(Named {
        number,
        amount,
        ..SEVEN
    })
}

// An open month of four hours beside its account.
#[derive(Drop)]
struct Stage<'a> {
    staged: &'a mut Staged<Net>,
    month: &'a mut Month<Open>,
}

impl<'a> Stage<'a> {
    // Makes a call on a month of four hours, on the even scale, and answers what it is told.
    fn told(&mut self, call: Call) -> anyhow::Result<Result<(), Refusal>> {
        let answer = self.staged.make(self.month, &call, Shape::Even, &[1; 4]);
        self.staged.note(call, answer)
    }

    // Whether an agent's net position in submarket 1 is this number.
    fn stands(&self, agent: u16, hour: u16, units: i64) -> bool {
        self.month
            .true_position::<Net>(self.staged.board.as_slice(), agent, 1, hour)
            .is_ok_and(|entry| entry.units == units)
    }

    // Whether a call is told this, and leaves this net position.
    fn leaves(
        &mut self,
        call: Call,
        wanted: Result<(), Refusal>,
        (agent, hour, units): (u16, u16, i64),
    ) -> anyhow::Result<bool> {
        let answered = self.told(call)? == wanted;
        Ok(answered && self.stands(agent, hour, units))
    }

    fn session_holds(&mut self, heap: Global) -> anyhow::Result<bool> {
        let cut = Call::Tell { agent: 1, kwh: 5 };
        let confirmed = confirmation(heap, 7)?;
        let again = confirmation(heap, 7)?;
        Ok(
            self.leaves(Call::Offer(SEVEN), Ok(()), (1, 2, 0))?
                && self.leaves(confirmed, Ok(()), (1, 2, 3))?
                && self.leaves(cut, Ok(()), (2, 4, -2))?
                && self.leaves(again, refused(10, 1), (2, 4, -2))?
                && self.stands(1, 2, 1),
        )
    }

    // The limits of an amount, and of a seller's amounts in force.
    fn limits_hold(&mut self, heap: Global) -> anyhow::Result<bool> {
        for (number, amount, wanted) in [
            (1, 0, refused(4, 9)),
            (1, 1_000_000_001, refused(4, 9)),
            (1, 1_000_000_000, Ok(())),
            (2, 1_000_000_000, Ok(())),
            (3, 1, Ok(())),
        ] {
            if self.told(offer(number, amount))? != wanted {
                return Ok(false);
            }
        }
        for (number, wanted) in [(1, Ok(())), (2, Ok(())), (3, refused(15, 3))] {
            let call = confirmation(heap, number)?;
            if self.told(call)? != wanted {
                return Ok(false);
            }
        }
        Ok(true)
    }
}

// Whether a month of so many hours is told this when it is opened.
fn hours_hold(heap: Global, hours: u16, wanted: Result<(), Refusal>) -> Result<bool, AllocError> {
    let mut staged: Staged<Net> = Staged::new(heap, 2, hours, 1)?;
    let opened = staged.open().map(|month| {
        let _ = month.discard();
    });
    Ok(opened.map_err(refusal_of) == wanted)
}

fn session_case(heap: Global) -> anyhow::Result<bool> {
    let mut staged: Staged<Net> = Staged::new(heap, 3, 4, 2)?;
    let Ok(mut month) = staged.open() else {
        return Ok(false);
    };
    let lived = Stage {
        staged: &mut staged,
        month: &mut month,
    }
    .session_holds(heap);
    let closed = month.close();
    let certified = staged.compare_line(heap, &closed, 2, (0, 5));
    closed.discard();
    Ok(lived? && certified.is_ok())
}

fn limits_case(heap: Global) -> anyhow::Result<bool> {
    let mut staged: Staged<Net> = Staged::new(heap, 2, 4, 3)?;
    let Ok(mut month) = staged.open() else {
        return Ok(false);
    };
    let held = Stage {
        staged: &mut staged,
        month: &mut month,
    }
    .limits_hold(heap);
    month.discard();
    Ok(held? && hours_hold(heap, 744, Ok(()))? && hours_hold(heap, 745, refused(3, 2))?)
}

pub fn compare_session(rt: &HostRuntime) -> anyhow::Result<()> {
    if !session_case(rt.alloc())? {
        return disagrees(rt, "worked session", 1);
    }
    if !limits_case(rt.alloc())? {
        return disagrees(rt, "worked session", 2);
    }
    println!(rt; "worked session: its positions, its refusal, its line and the limits agree")?;
    Ok(())
}
