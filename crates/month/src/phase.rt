// Open and closed months, as types that are moved from one to the other. Agents, submarkets, hours and contract numbers are
// handed to each call one by one: a call may name any, and is refused with the field's spot.
ghost use Rattle.std.specs.Prelude.{◌≤◌};

use book::sizes::Sizes;
use std::marker::PhantomData;

mod admission;
pub mod certifying;
pub mod closing;
pub mod confirming;
pub mod ending;
mod events;
pub mod offering;
pub mod opening;
pub mod positions;
pub mod quantities;
pub mod questions;
mod settling;
pub mod sizing;
pub mod telling;

// An open month takes offers, confirmations, endings and shortfalls.
pub struct Open {}

// A closed month writes certificate lines.
pub struct Closed {}

// A month holds only numbers; the host owns its four memories and hands them to each call.
// It is not Drop, so that no month is lost by oversight.
pub struct Month<P> {
    sizes: Sizes,
    taken: u16,
    phase: PhantomData<P>,
    ghost within: { taken ≤ sizes.places },
}
