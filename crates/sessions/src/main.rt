// Holds one session after another, each stored as a file of lines, and prints the replies below the file's name.
// The first is held three times: with its input whole, by single bytes, and by blocks that cut most lines.
#![tactic(auto)]

use console::{BLOCK, answer_all};
use session::Session;
use std::fs::File;
use std::io::BufWriter;

// Holds a session, of which so many bytes are read at a time.
fn hold(rt: &HostRuntime, name: &str, size: usize) -> anyhow::Result<()> {
    println!(rt; "{name}, read {size} at a time")?;
    let mut file = File::open(rt, name)?;
    let mut block = vec![in rt.alloc(); 0u8; size]?;
    let mut out = BufWriter::new(rt.alloc(), rt.stdout())?;
    let mut session = Session::new();
    let result = answer_all(&mut session, &mut file, block.as_mut_slice(), &mut out);
    session.finish();
    result?;
    Ok(())
}

fn hold_all(rt: &HostRuntime) -> anyhow::Result<()> {
    for name in [
        "first.txt",
        "offers.txt",
        "cuts.txt",
        "largest.txt",
        "refusals.txt",
        "empty.txt",
    ] {
        hold(rt, name, BLOCK)?;
    }
    hold(rt, "first.txt", 1)?;
    hold(rt, "first.txt", 7)
}

fn main(rt: HostRuntime) -> anyhow::Result<()> {
    hold_all(&rt)
}
