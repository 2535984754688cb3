// Compares the figures of docs/RULES.md, and several thousand generated cases, with a calculation of its own.
// A line for each group; the first case that disagrees is named, and the program ends with an error.
#![tactic(auto)]

mod cuts;
mod drawn;
mod months;
mod session;
mod shares;
mod worked;

use cuts::compare_cuts;
use entry::kinds::{BySource, Net};
use months::compare_months;
use session::compare_session;
use shares::{compare_quantities, compare_rows, compare_shares};
use worked::compare_worked;

fn run(rt: &HostRuntime) -> anyhow::Result<()> {
    compare_worked(rt)?;
    compare_session(rt)?;
    compare_shares(rt)?;
    compare_rows(rt)?;
    compare_quantities(rt)?;
    compare_cuts(rt)?;
    compare_months::<Net>(rt, "net months", 1)?;
    compare_months::<BySource>(rt, "by-source months", 2)
}

fn main(rt: HostRuntime) -> anyhow::Result<()> {
    run(&rt)
}
