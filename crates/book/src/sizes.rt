// The sizes of a month, within their limits.
ghost use Rattle.std.specs.Prelude.{◌≤◌};

pub mod sizing;

#[derive(Clone, Copy)]
pub struct Sizes {
    agents: u16,
    hours: u16,
    places: u16,
    ghost agents_low: { 2 ≤ agents },
    ghost agents_high: { agents ≤ 64 },
    ghost hours_low: { 1 ≤ hours },
    ghost hours_high: { hours ≤ 744 },
    ghost places_low: { 1 ≤ places },
    ghost places_high: { places ≤ 256 },
}
