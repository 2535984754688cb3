// An agent's turnover: what its contracts in force come to, sold and bought.
ghost use Rattle.std.specs.Prelude.{◌≡◌, ℕ, ◌<◌, ◌≤◌, length, slice_index_or};
ghost use Rattle.book.specs.Terms.{blank};
ghost use Rattle.month.specs.Questions.{sold_in, bought_in, sold as sold_of, bought as bought_of};

use arrayvec::ArrayVec;
use book::contract::{Contract, MOST_PLACES};
use entry::kinds::Turnover;
use entry::total::total;

// What one contract adds to an agent's turnover.
fn turnover_in(contract: &Contract, agent: u16) -> Turnover
    ensures sold { result.sold ≡ sold_in agent contract.now }
    ensures bought { result.bought ≡ bought_in agent contract.now }
{
    let amount_if = |party: bool| {
        if contract.in_force() && party {
            u64::from(contract.effective)
        } else {
            0
        }
    };
    Turnover {
        sold: amount_if(contract.terms.seller == agent),
        bought: amount_if(contract.terms.buyer == agent),
    }
}

// The turnover of an agent over the taken places, by the total that serves every joining kind.
pub(crate) fn turnover_over(taken: &[Contract], agent: u16) -> Turnover
    requires few { length taken.now ≤ 256 }
    requires moderate { (i : ℕ) → i < length taken.now → (slice_index_or taken.now i blank).effective ≤ 1000000000 }
    ensures sold { result.sold ≡ sold_of agent taken.now }
    ensures bought { result.bought ≡ bought_of agent taken.now }
    ensures most { (result.sold ≤ 256000000000) × (result.bought ≤ 256000000000) }
{
    // Fixed memory, since the library allocates nothing.
    let mut parts = ArrayVec::<Turnover, MOST_PLACES>::new();
    for contract in taken {
        parts.push(turnover_in(contract, agent));
    }
    total(parts.as_slice(), 0, 1, taken.len())
}
