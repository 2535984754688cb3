// Makes the calls of a script, line by line, and holds what each is told against what the line says: refusals of every call, by number
// and spot. A refusal that moves a memory or the page is told as none of them. Prints how often each refusal was met.
//
// Standard input holds the script. A line is a letter and numbers, and for a call `=` with the refusal's number and spot that it must be
// told (0 0: none). `#` begins a remark. A month begins with M, is closed by K, and ends with a dot and the count of places taken.
#![tactic(auto)]

mod host;
mod made;
mod mark;
mod order;
mod script;
mod tally;
mod told;

use anyhow::{anyhow, bail, ensure};
use host::Host;
use month::phase::{Closed, Month, Open};
use order::Order;
use script::{Line, Script};
use std::io::Read;
use tally::Tally;
use told::Told;

// More lines than a script has.
const MANY: u32 = 100_000;

// The script, the host whose memories its lines speak of, and the refusals met so far.
#[derive(Drop)]
struct Trial<'r, 't> {
    rt: &'r HostRuntime,
    script: Script<'t>,
    host: Host,
    tally: Tally,
}

impl Trial<'_, '_> {
    // Whether the line was told what it says.
    fn agrees(&mut self, order: Order, told: Told) -> bool {
        self.tally.note(order, told);
        told == self.script.line.wanted()
    }

    // Prints what the line was told that says something else, and answers the error.
    fn differ(&self, told: Told) -> anyhow::Error {
        let at = self.script.line.at;
        match println!(self.rt; "line {at}: told {told}") {
            Ok(()) => anyhow!("a line is told something else"),
            Err(error) => anyhow::Error::from(error),
        }
    }

    // Holds what the line was told against what it says.
    fn judge(&mut self, order: Order, told: Told) -> anyhow::Result<()> {
        if self.agrees(order, told) {
            Ok(())
        } else {
            Err(self.differ(told))
        }
    }

    // The lines up to the order that ends them: whether it comes. A closure makes their calls, and takes for one whatever a line
    // orders. Only a line that differs makes an error, since room for one at each line is a tenth of a short line's time.
    fn take_until<F: FnMut(&mut Host, Order, &Line) -> Told>(
        &mut self,
        end: Order,
        mut make: F,
    ) -> anyhow::Result<bool>
        requires { F.IsAlwaysCallable make }
    {
        for _ in 0..MANY {
            match self.script.next_order() {
                Order::Prepare(step) => self.host.prepare(step, &self.script.line)?,
                order if order == end => return Ok(true),
                order => {
                    let told = make(&mut self.host, order, &self.script.line);
                    if !self.agrees(order, told) {
                        return Err(self.differ(told));
                    }
                }
            }
        }
        Ok(false)
    }

    // The lines of an open month, up to K.
    fn live(&mut self, month: &mut Month<Open>) -> anyhow::Result<()> {
        let is_closed = self.take_until(Order::Close, |host, order, line| {
            host.call(month, order, line)
        })?;
        ensure!(is_closed, "a month is not closed");
        Ok(())
    }

    // The lines of a closed month, up to the dot; answers how many places must be taken.
    fn certify(&mut self, month: &Month<Closed>) -> anyhow::Result<u16> {
        let is_finished = self.take_until(Order::Finish, |host, order, line| {
            host.call_closed(month, order, line)
        })?;
        ensure!(is_finished, "a month has no end");
        Ok(self.script.line.number(0))
    }

    // A month that was opened. It is closed, and its lines go on, where a line of the open month is told something else too.
    fn go_through(&mut self, mut month: Month<Open>) -> anyhow::Result<()> {
        let lived = self.live(&mut month);
        let closed = month.close();
        let places = self.certify(&closed);
        let taken = closed.discard();
        lived?;
        if places? == taken {
            return Ok(());
        }
        println!(self.rt; "{taken} places are taken")?;
        bail!("a refused offer took a place")
    }

    // The line outside a month: memories, or an opening, whatever else it orders.
    fn begin(&mut self, order: Order) -> anyhow::Result<()> {
        let line = &self.script.line;
        if let Order::Prepare(step) = order {
            self.host.prepare(step, line)?;
            return Ok(());
        }
        let before = self.host.mark();
        match self
            .host
            .open(line.number(0), line.number(1), line.number(2))
        {
            Ok(month) => {
                let opened = self.judge(order, Told::Passed);
                let gone = self.go_through(month);
                opened.and(gone)
            }
            Err(fault) => {
                let told = self.host.told(before, Err(fault));
                self.judge(order, told)
            }
        }
    }
}

fn run(rt: &HostRuntime) -> anyhow::Result<()> {
    let mut text = Vec::new(rt.alloc());
    rt.stdin().read_to_end(&mut text)?;
    let mut trial = Trial {
        rt,
        script: Script::new(text.as_slice()),
        host: Host::new(rt.alloc(), 2, 1, 1)?,
        tally: Tally::new(),
    };
    for _ in 0..MANY {
        match trial.script.next_order() {
            Order::Blank => break,
            order => trial.begin(order)?,
        }
    }
    trial.tally.show(rt)
}

fn main(rt: HostRuntime) -> anyhow::Result<()> {
    run(&rt)
}
