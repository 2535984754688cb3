// The program: a session over standard input and output.
#![tactic(auto)]

use console::{BLOCK, answer_all};
use session::Session;
use std::io;
use std::io::BufWriter;

fn main(rt: HostRuntime) -> io::Result<()> {
    let mut out = BufWriter::new(rt.alloc(), rt.stdout())?;
    let mut session = Session::new();
    let result = answer_all(&mut session, &mut rt.stdin(), &mut [0u8; BLOCK], &mut out);
    session.finish();
    result
}
