// Entries of the board that can be told to whoever asks for a position.
ghost use Rattle.std.specs.Prelude.{◌≡◌, ℕ, true, length, IfOk, nat_eq, slice_index_or};
ghost use Rattle.scale.specs.Refusals.{refusal_of};
ghost use Rattle.entry.specs.Kinds.{meaning, values};
ghost use Rattle.ledger.specs.Checks.{position_refusal};
ghost use Rattle.ledger.specs.Differences.{difference_in};
ghost use Rattle.ledger.specs.Past.{Ledger, ledger};
ghost use Rattle.lines.specs.declared.reply.Reply.{Reply};
ghost use Rattle.lines.specs.declared.reply.Reply.TheVariants.{At, AtBySource};
ghost use Rattle.month.specs.Questions.{entry_index, InEveryLife};

use entry::kinds::{BySource, Net};
use entry::reversible::Reversible;
use ledger::counted::Counted;
use lines::reply::Reply;
use month::phase::Month;
use scale::fault::Fault;

// A kind of entry with the reply that tells a position: the entry's numbers, which in every life are the ledger's.
pub trait Shown: Reversible {
    ghost shows: { Self → Reply };

    ghost tells: { Ledger → ℕ → ℕ → ℕ → Reply };

    fn position<P>(
        month: &Month<P>,
        board: &[Self],
        agent: u16,
        submarket: u16,
        hour: u16,
    ) -> Result<Reply, Fault>
        ensures answer { refusal_of result ≡ position_refusal month.now.sizes (length board.now) agent submarket hour }
        ensures shown { IfOk result (λ y. (e : Self) × (e ≡ slice_index_or board.now (entry_index month.now.sizes agent submarket hour) e) × (y ≡ shows e)) }
        ensures lived { IfOk result (λ y. InEveryLife (meaning Self.Joining Self.Reversible.own) month.now.sizes (values Self.Joining board.now)
            (λ past. y ≡ tells (ledger past) agent submarket hour)) };
}

// An entry's numbers as a reply.
pub trait Worded {
    ghost wording: { Self → Reply };

    fn reply(self) -> Reply
        ensures { result ≡ wording self };
}

// A position of a kind whose entries are the ledger's differences, put into words: one text for every such kind. A kind of
// another sort is `Shown` by a text of its own.
fn told_position<E: Counted + Worded, P>(
    month: &Month<P>,
    board: &[E],
    agent: u16,
    submarket: u16,
    hour: u16,
) -> Result<Reply, Fault>
    ensures answer { refusal_of result ≡ position_refusal month.now.sizes (length board.now) agent submarket hour }
    ensures shown { IfOk result (λ y. (e : E) × (e ≡ slice_index_or board.now (entry_index month.now.sizes agent submarket hour) e) × (y ≡ E.wording e)) }
    ensures lived { IfOk result (λ y. InEveryLife (meaning E.Joining E.Reversible.own) month.now.sizes (values E.Joining board.now)
        (λ past. y ≡ E.wording (E.difference (ledger past) agent submarket hour))) }
{
    month
        .true_position(board, agent, submarket, hour)
        .map(E::reply)
}

impl Worded for Net {
    ghost wording = { λ e. At e.units };

    fn reply(self) -> Reply {
        Reply::At { net: self.units }
    }
}

impl Shown for Net {
    ghost shows = { λ e. At e.units };

    ghost tells = { λ b agent submarket hour. At (difference_in b (λ _. true) agent submarket hour) };

    fn position<P>(
        month: &Month<P>,
        board: &[Net],
        agent: u16,
        submarket: u16,
        hour: u16,
    ) -> Result<Reply, Fault> {
        told_position(month, board, agent, submarket, hour)
    }
}

impl Worded for BySource {
    ghost wording = { λ e. AtBySource e.conventional e.incentivised };

    fn reply(self) -> Reply {
        Reply::AtBySource {
            conventional: self.conventional,
            incentivised: self.incentivised,
        }
    }
}

impl Shown for BySource {
    ghost shows = { λ e. AtBySource e.conventional e.incentivised };

    ghost tells = { λ b agent submarket hour. AtBySource (difference_in b (nat_eq 0) agent submarket hour) (difference_in b (nat_eq 1) agent submarket hour) };

    fn position<P>(
        month: &Month<P>,
        board: &[BySource],
        agent: u16,
        submarket: u16,
        hour: u16,
    ) -> Result<Reply, Fault> {
        told_position(month, board, agent, submarket, hour)
    }
}
