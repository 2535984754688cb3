// One total over a run of entries, for every joining kind.
ghost use Rattle.std.specs.Prelude.{◌≡◌, ◌+◌, ◌*◌, slice_index_or};
ghost use Rattle.entry.specs.Kinds.{joins_in, values, up_to};

use crate::joining::Joining;

// A sum with the entry at an index joined to it, if the slice holds one.
fn with_entry<J: Joining>(sum: J, entries: &[J], at: usize) -> J
    ensures { J.Joining.value result ≡ J.Joining.joined (J.Joining.value sum) (slice_index_or (values J.Joining entries.now) at J.Joining.nothing) }
{
    match entries.get(at) {
        Some(entry) => sum.join(*entry),
        None => sum,
    }
}

// The join of `count` entries, from the index `first` on, `step` entries apart. Past the slice entries count as empty.
pub fn total<J: Joining>(entries: &[J], first: usize, step: usize, count: usize) -> J
    ensures { J.Joining.value result ≡ up_to (joins_in J.Joining) count (λ k. slice_index_or (values J.Joining entries.now) (first + k * step) J.Joining.nothing) }
{
    // The index goes along with the sum: to multiply it out for each entry costs twice the time.
    let (sum, _) = (0..count).fold((J::empty(), first), |(sum, at), _| {
        (with_entry(sum, entries, at), at.saturating_add(step))
    });
    sum
}
