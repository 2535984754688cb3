// The board: one entry per agent, within it per submarket, within it per hour. Deals are put on it and taken off.
#![tactic(auto)]

ghost use Rattle.std.specs.Prelude.{◌≡◌, ℕ, ◌+◌, ◌*◌, ◌≤◌, is_ok, ◌≢◌, length, OnErr, OnOk, slice_index};
ghost use Rattle.entry.specs.Kinds.{meaning, values};
ghost use Rattle.board.specs.Lanes.{lane as lane_of, room_for, fitting};
ghost use Rattle.board.specs.Moves.{EachJoined, Moved, Added, TakenOff, Undoes};

pub mod deal;
pub mod off_board;

use deal::Deal;
use entry::joining::Joining;
use entry::reversible::Reversible;
use entry::source::Source;
use off_board::OffBoard;

// Joins to each entry of a lane what the quantity of its hour makes.
fn join_each<E: Joining, F: Fn(u32) -> E>(lane: &mut [E], quantities: &[u32], make: F)
    requires callable { F.IsAlwaysCallable make }
    requires long { length lane.old ≡ length quantities.now }
    ensures { EachJoined E.Joining (F.post make) quantities.now lane.old lane.new }
{
    // By the hour, since a proof learns nothing of what a loop over `iter_mut().zip(quantities)` wrote.
    for (hour, entry) in lane.iter_mut().enumerate() {
        *entry = entry.join(make(quantities[hour]));
    }
}

// Joins each hour's entry to the lane `from`, and its opposite to the lane `to`.
fn transfer<E: Reversible>(
    board: &mut [E],
    from: usize,
    to: usize,
    source: Source,
    quantities: &[u32],
)
    requires apart { from ≢ to }
    requires leaves { (from + 1) * length quantities.now ≤ length board.old }
    requires enters { (to + 1) * length quantities.now ≤ length board.old }
    ensures { Moved (meaning E.Joining E.Reversible.own) (length quantities.now) from to source (λ t. slice_index quantities.now t) (length quantities.now) (values E.Joining board.old) (values E.Joining board.new) }
{
    let hours = quantities.len();
    let sells = from * hours;
    join_each(&mut board[sells..sells + hours], quantities, |quantity| {
        E::of_quantity(quantity, source)
    });
    let buys = to * hours;
    join_each(&mut board[buys..buys + hours], quantities, |quantity| {
        E::of_quantity(quantity, source).opposite()
    });
}

// The lane of an agent at a submarket.
fn lane(agent: u16, submarket: u16) -> usize
    requires { (1 ≤ agent) × (1 ≤ submarket) }
    ensures { result ≡ lane_of agent submarket }
{
    (agent as usize - 1) * 4 + (submarket as usize - 1)
}

// How many agents a board of this length has room for.
fn room_for(length: usize, hours: usize) -> usize
    ensures { result ≡ room_for length hours }
{
    if hours == 0 { 0 } else { length / hours / 4 }
}

// Whether both parties are agents of the board, and two, and the submarket is one of the four.
fn is_fitting(deal: &Deal, agents: usize) -> bool
    ensures { result ≡ fitting agents deal.now }
{
    (1..=agents).contains(&(deal.seller as usize))
        && (1..=agents).contains(&(deal.buyer as usize))
        && deal.seller != deal.buyer
        && (1..=4).contains(&deal.submarket)
}

// Puts a deal's quantities, one per hour, on the board. A deal that does not fit the board leaves it as it is.
pub fn add<E: Reversible>(board: &mut [E], deal: &Deal, quantities: &[u32]) -> Result<(), OffBoard>
    ensures told { is_ok result ≡ fitting (room_for (length board.old) (length quantities.now)) deal.now }
    ensures moved { OnOk result (Added (meaning E.Joining E.Reversible.own) deal.now quantities.now (values E.Joining board.old) (values E.Joining board.new)) }
    ensures kept { OnErr result (board.new ≡ board.old) }
{
    let agents = room_for(board.len(), quantities.len());
    if !is_fitting(deal, agents) {
        return Err(OffBoard);
    }
    let sells = lane(deal.seller, deal.submarket);
    let buys = lane(deal.buyer, deal.submarket);
    transfer(board, sells, buys, deal.source, quantities);
    Ok(())
}

// Takes a deal's quantities off again, as its buyer selling them back: what `add` put on, it undoes.
pub fn take_off<E: Reversible>(
    board: &mut [E],
    deal: &Deal,
    quantities: &[u32],
) -> Result<(), OffBoard>
    ensures told { is_ok result ≡ fitting (room_for (length board.old) (length quantities.now)) deal.now }
    ensures moved { OnOk result (TakenOff (meaning E.Joining E.Reversible.own) deal.now quantities.now (values E.Joining board.old) (values E.Joining board.new)) }
    ensures undoes { OnOk result (Undoes (meaning E.Joining E.Reversible.own) deal.now quantities.now (values E.Joining board.old) (values E.Joining board.new)) }
    ensures kept { OnErr result (board.new ≡ board.old) }
{
    add(board, &deal.reversed(), quantities)
}

#[cfg(test)]
mod tests {
    use super::{add, take_off};
    use crate::deal::Deal;
    use crate::off_board::OffBoard;
    use entry::joining::Joining;
    use entry::kinds::{BySource, Net};
    use entry::reversible::Reversible;
    use entry::source::Source;

    #[test]
    fn deals_come_and_go(rt: HostRuntime) {
        let mut board = [Net { units: 0 }; 16];
        let deal = Deal {
            seller: 1,
            buyer: 2,
            submarket: 3,
            source: Source::Conventional,
        };
        assert_eq!(rt; add(&mut board, &deal, &[7, 0]), Ok(()));
        assert_eq!(rt; board[4].units, 7);
        assert_eq!(rt; board[12].units, -7);
        assert_eq!(rt; take_off(&mut board, &deal, &[7, 0]), Ok(()));
        assert_eq!(rt; board[12].units, 0);
    }

    #[test]
    fn a_deal_off_the_board_changes_nothing(rt: HostRuntime) {
        let mut board = [BySource {
            conventional: 1,
            incentivised: 0,
        }; 8];
        let deal = Deal {
            seller: 2,
            buyer: 1,
            submarket: 4,
            source: Source::Incentivised,
        };
        assert_eq!(rt; add(&mut board, &deal, &[5]), Ok(()));
        assert_eq!(rt; board[7].incentivised, 5);
        let stranger = Deal { buyer: 3, ..deal };
        assert_eq!(rt; add(&mut board, &stranger, &[5]), Err(OffBoard));
        assert_eq!(rt; board[7].incentivised, 5);
    }
}
