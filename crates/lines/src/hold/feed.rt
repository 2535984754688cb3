ghost use Rattle.std.specs.Prelude.{◌≡◌, ℕ, ◌<◌, ◌≤◌, List, [], ◌∷◌, ◌++◌, length, MatchOption};
ghost use Rattle.lines.specs.Grammar.{longest, Parsed, Exact};
ghost use Rattle.lines.specs.Held.{Holds, started};

use super::{HELD, LONGEST, LineHold};
use crate::command::Command;
use crate::parse::parse_line;

// Each contract speaks of every text t that the hold may hold: of an overlong line only a front is kept, so no field and no view
// of the hold could name the text.
impl LineHold {
    // Nothing has come yet.
    pub fn new() -> LineHold
        ensures { Holds result [] }
    {
        LineHold {
            held: [0; HELD],
            len: 0,
        }
    }

    // One more byte of the line.
    pub fn push(&mut self, b: u8)
        ensures { (t : List ℕ) → Holds self.old t → Holds self.new (t ++ b ∷ []) }
    {
        if self.len < HELD {
            self.held[self.len] = b;
            self.len += 1;
        }
    }

    // The line has ended, and another begins.
    pub fn clear(&mut self)
        ensures { Holds self.new [] }
    {
        self.len = 0;
    }

    // Whether a byte came since the last line feed.
    pub fn is_started(&self) -> bool
        ensures { (t : List ℕ) → Holds self.now t → result ≡ started t }
    {
        self.len > 0
    }

    // The line, or nothing where it has more than 80 bytes.
    pub fn line(&self) -> Option<&[u8]>
        ensures { (t : List ℕ) → Holds self.now t → MatchOption result (longest < length t) (λ x. x.now ≡ t) }
    {
        if self.len > LONGEST {
            return None;
        }
        Some(&self.held[..self.len])
    }

    // The command that is written on the line; a line of more than 80 bytes is none.
    pub fn command(&self) -> Option<Command>
        ensures reads { (t : List ℕ) → Holds self.now t → Parsed t result }
        ensures exact { (t : List ℕ) → Holds self.now t → Exact t result }
    {
        parse_line(self.line()?)
    }
}
