// What a line does to a session's month, and what is replied.
ghost use Rattle.std.specs.Prelude.{◌≡◌, ◌≤◌};
ghost use Rattle.scale.specs.Refusals.{refusal_of};
ghost use Rattle.entry.specs.Kinds.{meaning};
ghost use Rattle.page.specs.Page.{Fronted};
ghost use Rattle.session.specs.Held.{held_of};
ghost use Rattle.session.specs.Questions.{showing_of};
ghost use Rattle.session.specs.Turns.{ack, Replied, DeskTurned};

use super::Desk;
use super::calls::OUT_OF_TURN;
use crate::shown::Shown;
use book::contract::Offer;
use lines::command::Command;
use lines::reply::Reply;
use lines::say::{ROOM, put_reply};
use scale::fault::Fault;

// Acknowledges a call that is accepted or refused, and tells no more.
pub(crate) fn put_ack(page: &mut [u8; ROOM], answer: Result<(), Fault>) -> usize
    ensures put { Fronted (ack (refusal_of answer)) page.old page.new result }
    ensures within { result ≤ 64 }
{
    put_reply(page, Reply::from(answer))
}

impl<E: Shown> Desk<E> {
    // Answers a command other than one that opens: for every kind of entry, one text.
    pub(crate) fn answer(&mut self, command: Command, page: &mut [u8; ROOM]) -> usize
        ensures does { Replied (λ line. DeskTurned (meaning E.Joining E.Reversible.own) (showing_of E.Joining E.Shown.own) command
            (held_of E.Joining self.old) line (held_of E.Joining self.new))
            page.old page.new result }
        ensures within { result ≤ 64 }
    {
        match command {
            Command::Offer {
                number,
                seller,
                buyer,
                submarket,
                class,
                source,
                first,
                last,
                amount,
            } => {
                let offer = Offer {
                    number,
                    seller,
                    buyer,
                    submarket,
                    class,
                    source,
                    first,
                    last,
                    amount,
                };
                put_ack(page, self.offer(offer))
            }
            Command::Confirm { number, agent } => put_ack(page, self.confirm(number, agent)),
            Command::End { number, agent } => put_ack(page, self.end(number, agent)),
            Command::Tell { agent, kwh } => put_ack(page, self.tell(agent, kwh)),
            Command::Position {
                agent,
                submarket,
                hour,
            } => {
                let answer = self.position(agent, submarket, hour);
                put_reply(page, answer.unwrap_or_else(Reply::from))
            }
            Command::Certificate { agent } => match self.certificate(agent, page) {
                Ok(n) => n,
                Err(fault) => put_reply(page, Reply::from(fault)),
            },
            Command::Close => put_ack(page, self.close()),
            Command::Open { .. } => put_ack(page, Err(OUT_OF_TURN)),
        }
    }
}
