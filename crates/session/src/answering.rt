// From line to reply.
ghost use Rattle.std.specs.Prelude.{◌≡◌, ℕ, ◌≤◌, List};
ghost use Rattle.scale.specs.Refusals.{refusal_of};
ghost use Rattle.lines.specs.Held.{Holds};
ghost use Rattle.session.specs.Closing.{taken_at};
ghost use Rattle.session.specs.Lives.{LivesOn};
ghost use Rattle.session.specs.Seen.{none, seen, stage_of};
ghost use Rattle.session.specs.Steps.{Answered, OpensFrom, Stepped};
ghost use Rattle.session.specs.Turns.{Replied};

use crate::Session;
use crate::desk::Desk;
use crate::desk::answering::put_ack;
use crate::desk::any::AnyDesk;
use crate::desk::calls::OUT_OF_TURN;
use lines::command::Command;
use lines::hold::LineHold;
use lines::say::ROOM;
use scale::fault::Fault;
use std::mem::replace;

impl Session {
    // No month yet.
    pub fn new() -> Session
        ensures { seen result ≡ none }
    {
        Session {
            desk: AnyDesk::Net(Desk::new()),
        }
    }

    // Opens the month, once, with the kind of entry that is asked for.
    fn open(&mut self, agents: u16, hours: u16, size: u16, kind: u16) -> Result<(), Fault>
        ensures { OpensFrom kind agents hours size (seen self.old) (refusal_of result) (seen self.new) }
    {
        if !self.desk.is_idle() {
            return Err(OUT_OF_TURN);
        }
        let opened = AnyDesk::open(kind, agents, hours, size)?;
        replace(&mut self.desk, opened).discard();
        Ok(())
    }

    // Answers a command, at the front of the page.
    fn carry_out(&mut self, command: Command, page: &mut [u8; ROOM]) -> usize
        ensures does { Replied (λ line. Stepped command (seen self.old) line (seen self.new)) page.old page.new result }
        ensures within { result ≤ 64 }
    {
        match command {
            Command::Open {
                agents,
                hours,
                places,
                kind,
            } => put_ack(page, self.open(agents, hours, places, kind)),
            _ => match &mut self.desk {
                AnyDesk::Net(desk) => desk.answer(command, page),
                AnyDesk::BySource(desk) => desk.answer(command, page),
            },
        }
    }

    // Answers a line: its reply, with the line feed, comes to the front of the page, and is as long as the answer says.
    pub fn answer(&mut self, line: &LineHold, page: &mut [u8; ROOM]) -> usize
        ensures answered { (text : List ℕ) → Holds line.now text
            → Answered text (seen self.old) (seen self.new) page.old page.new result }
        ensures life { LivesOn (seen self.old) (seen self.new) }
        ensures within { result ≤ 64 }
    {
        match line.command() {
            Some(command) => self.carry_out(command, page),
            None => put_ack(page, Err(OUT_OF_TURN)),
        }
    }

    // Puts the month away, if there is one, and answers how many places it had taken.
    pub fn finish(self) -> u16
        ensures { result ≡ taken_at (stage_of self.desk) }
    {
        let Session { desk } = self;
        desk.discard()
    }
}
