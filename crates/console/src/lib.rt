// A session over any input and output: reads lines and writes one reply for each.
#![tactic(auto)]

ghost use Rattle.session.specs.Lives.{LivesOn, LivesThrough};
ghost use Rattle.session.specs.Seen.{seen};

use lines::hold::LineHold;
use lines::say::ROOM;
use session::Session;
use std::io;
use std::io::{ErrorKind, Read, Write};

// How many bytes a program reads at a time.
pub const BLOCK: usize = 65536;

fn answer_line<W: Write>(session: &mut Session, line: &LineHold, out: &mut W) -> io::Result<()>
    ensures { LivesOn (seen session.old) (seen session.new) }
{
    let mut page = [0u8; ROOM];
    let n = session.answer(line, &mut page);
    out.write_all(&page[..n])
}

// Answers each line that ends in `block`, and holds what follows the last. Session, hold and output are lent apart, since a line
// that ends is answered from the hold while the session and the output change.
fn answer_block<W: Write>(
    session: &mut Session,
    held: &mut LineHold,
    block: &[u8],
    out: &mut W,
) -> io::Result<()>
    ensures { LivesThrough (seen session.old) (seen session.new) }
{
    for &b in block {
        if b == b'\n' {
            answer_line(session, held, out)?;
            held.clear();
        } else {
            held.push(b);
        }
    }
    Ok(())
}

// Answers the lines that end in the next block of input, and hands the answers on before more input is waited for.
// False at the end of the input: an answer like any other, and no error.
#[tactic(auto, using(session::proofs::Lasting::rest))]
fn step<R: Read, W: Write>(
    session: &mut Session,
    held: &mut LineHold,
    input: &mut R,
    block: &mut [u8],
    out: &mut W,
) -> io::Result<bool>
    ensures { LivesThrough (seen session.old) (seen session.new) }
{
    match input.read(block) {
        Ok(n) => {
            answer_block(session, held, &block[..n], out)?;
            out.flush()?;
            Ok(n > 0)
        }
        Err(e) if e.kind() == ErrorKind::Interrupted => Ok(true),
        Err(e) => Err(e),
    }
}

// Answers every line of the input, the last one also where no line feed ends it; the input is read into `block`.
// Whatever is read, and also where reading or writing fails, every life of the session's month goes on, and balances.
pub fn answer_all<R: Read, W: Write>(
    session: &mut Session,
    input: &mut R,
    block: &mut [u8],
    out: &mut W,
) -> io::Result<()>
    ensures { LivesThrough (seen session.old) (seen session.new) }
{
    let mut held = LineHold::new();
    // The input says when it ends. Every loop here has an end of its own, so this one is counted.
    for _ in 0..u64::MAX {
        if !step(session, &mut held, input, block, out)? {
            break;
        }
    }
    if held.is_started() {
        answer_line(session, &held, out)?;
    }
    out.flush()
}
