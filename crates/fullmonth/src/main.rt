// Stages a full month, larger than any site has: 64 agents, 744 hours, 256 places all in force, in every submarket and class.
// After each phase everything is held against a plain account. What is written is always the same; times go to standard error.
#![tactic(auto)]

mod plan;
mod times;

ghost use Rattle.std.specs.Iterator.{IsFinite};

use anyhow::bail;
use entry::joining::Joining;
use entry::kinds::{BySource, Net};
use entry::reversible::Reversible;
use model::answers::Refusal;
use month::phase::{Closed, Month, Open};
use plan::{AGENTS, FIRST, HOURS, Made, PLACES, SECOND, ends_at};
use std::alloc::AllocError;
use std::time::Instant;
use times::Times;
use trial::kind::Kind;
use trial::staged::Staged;

// An open month beside its account.
#[derive(Drop)]
struct Stage<'a, E: Kind + Drop> {
    rt: &'a HostRuntime,
    staged: &'a mut Staged<E>,
    month: &'a mut Month<Open>,
}

impl<'a, E: Kind + Drop> Stage<'a, E> {
    // Makes a call and times it, holds its answer against the account, and says what it is told.
    fn timed(&mut self, made: Made, times: &mut Times) -> anyhow::Result<Result<(), Refusal>> {
        let Made { call, shape, raw } = made;
        let start = Instant::now(self.rt)?;
        let answer = self.staged.make(self.month, &call, shape, raw.as_slice());
        times.keep(start.elapsed(self.rt)?)?;
        self.staged.note(call, answer)
    }

    // Makes the calls of a phase, holds everything against the account, and says so, and how many calls were told what is wanted:
    // a refusal is wanted by its number, which the account has.
    fn go_through<I: Iterator<Item = Result<Made, AllocError>> + Drop>(
        &mut self,
        phase: &str,
        calls: I,
        wanted: Result<(), u16>,
        times: &mut Times,
    ) -> anyhow::Result<()>
        requires can { I.can_next calls }
        requires ends { IsFinite (I.remaining calls) }
    {
        let mut count: u32 = 0;
        for made in calls {
            let told = self.timed(made?, times)?;
            if told.map_err(|refusal| refusal.number) == wanted {
                count = count.wrapping_add(1);
            }
        }
        self.staged.compare(self.rt.alloc(), self.month)?;
        println!(self.rt; "  {count} {phase}: every place, position and hour agrees")?;
        Ok(())
    }

    // Confirms every contract.
    fn confirm_all(
        &mut self,
        phase: &str,
        wanted: Result<(), u16>,
        times: &mut Times,
    ) -> anyhow::Result<()> {
        let heap = self.rt.alloc();
        let calls = (0..PLACES).map(move |place| Made::confirmation(heap, place));
        self.go_through(phase, calls, wanted, times)
    }

    // Tells every agent the shortfall of a round.
    fn tell_all(&mut self, phase: &str, round: u64, times: &mut Times) -> anyhow::Result<()> {
        let heap = self.rt.alloc();
        let calls = (1..=AGENTS).map(move |agent| Ok(Made::telling(heap, agent, round)));
        self.go_through(phase, calls, Ok(()), times)
    }

    // The phases of the open month, in turn. Answers the times that are shown once the certificate lines agree too.
    fn run(&mut self) -> anyhow::Result<[Times; 4]> {
        let heap = self.rt.alloc();
        let mut untold = Times::new(heap, "offer");
        let mut confirm = Times::new(heap, "confirm");
        let mut repeat = Times::new(heap, "repeat");
        let mut tell = Times::new(heap, "tell");
        let mut end = Times::new(heap, "end");
        let offers = (0..PLACES).map(move |place| Ok(Made::offer(heap, place)));
        let endings = (0..PLACES)
            .filter(|place| ends_at(*place))
            .map(move |place| Ok(Made::ending(heap, place)));
        self.go_through("offered", offers, Ok(()), &mut untold)?;
        self.confirm_all("confirmed", Ok(()), &mut confirm)?;
        self.confirm_all("repeated and refused 10", Err(10), &mut repeat)?;
        self.tell_all("told a shortfall", FIRST, &mut tell)?;
        self.tell_all("told another", SECOND, &mut tell)?;
        self.confirm_all("repeated again and refused 10", Err(10), &mut repeat)?;
        self.go_through("ended", endings, Ok(()), &mut end)?;
        Ok([confirm, repeat, tell, end])
    }
}

// Asks every certificate line, holds each against the account, and writes what they come to.
fn certify<E: Kind + Drop>(
    rt: &HostRuntime,
    staged: &Staged<E>,
    month: &Month<Closed>,
) -> anyhow::Result<()> {
    let heap = rt.alloc();
    let lines = staged.account.lines(heap)?;
    let mut sold: u64 = 0;
    let mut bought: u64 = 0;
    for agent in 1..=AGENTS {
        let turnover = staged.compare_turnover(month, lines.as_slice(), agent)?;
        staged.compare_line(heap, month, agent, turnover)?;
        sold = sold.wrapping_add(turnover.0);
        bought = bought.wrapping_add(turnover.1);
    }
    println!(rt; "  {AGENTS} certificate lines: sold {sold} bought {bought}")?;
    Ok(())
}

// Goes through all phases of an opened month, and closes it. Answers the times to show.
fn live<E: Kind + Drop>(
    rt: &HostRuntime,
    staged: &mut Staged<E>,
    mut month: Month<Open>,
) -> anyhow::Result<[Times; 4]> {
    let mut stage = Stage {
        rt,
        staged: &mut *staged,
        month: &mut month,
    };
    let ran = stage.run();
    let closed = month.close();
    let certified = certify(rt, staged, &closed);
    closed.discard();
    let times = ran?;
    certified?;
    Ok(times)
}

// Stages the month in one kind of entry.
fn stage_in<E: Kind + Drop>(rt: &HostRuntime, name: &str) -> anyhow::Result<()> {
    println!(rt; "{name}: {AGENTS} agents, {HOURS} hours, {PLACES} places")?;
    let mut staged: Staged<E> = Staged::new(rt.alloc(), AGENTS, HOURS, PLACES)?;
    let Ok(month) = staged.open() else {
        bail!("the month is not opened");
    };
    let mut shown = live(rt, &mut staged, month)?;
    for times in shown.iter_mut() {
        times.show(rt, name)?;
    }
    Ok(())
}

fn both(rt: &HostRuntime) -> anyhow::Result<()> {
    stage_in::<Net>(rt, "net")?;
    stage_in::<BySource>(rt, "by-source")
}

fn main(rt: HostRuntime) -> anyhow::Result<()> {
    both(&rt)
}
