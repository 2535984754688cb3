// An amount shared over a scale: one text for every scale.
ghost use Rattle.std.specs.Prelude.{◌≡◌, ◌-◌, ◌≤◌, length, take, IfOk, sum, MatchResult};
ghost use Rattle.scale.specs.Refusals.{refusal_of};
ghost use Rattle.scale.specs.Shares.{amount_check, down_to, shares_of, share_check, part_check, Shared};
ghost use Rattle.scale.specs.Totals.{limit, total_check};
ghost use Rattle.scale.specs.Weights.{clipped, weight_at};

use crate::clip::Clip;
use crate::fault::{Fault, Reason};
use crate::row::RowScale;
use crate::total::{MOST, total};
use crate::weights::Scale;

// An amount over the scale that it is shared over, whose total is known. Both are within their limits.
#[derive(Drop)]
struct Sharing<'a, S: Scale> {
    amount: u32,
    total: u32,
    scale: &'a S,
    ghost amount_within: { amount ≤ limit },
    ghost total_within: { (1 ≤ total) × (total ≤ limit) },
    ghost total_of_scale: { total ≡ sum (S.Scale.weights scale.now) },
}

impl<'a, S: Scale> Sharing<'a, S> {
    // An amount that is within its limit, over a scale, unless the scale's total is refused.
    fn over(scale: &'a S, amount: u32) -> Result<Sharing<'a, S>, Fault>
        requires { amount ≤ limit }
        ensures answer { refusal_of result ≡ total_check (S.Scale.weights scale.now) }
        ensures value { IfOk result (λ s. (s.amount ≡ amount) × (s.scale.now ≡ scale.now)) }
    {
        Ok(Sharing {
            amount,
            total: total(scale)?,
            scale,
        })
    }

    // What the parts up to a weight get together: the rounding, down.
    fn given(&self, weight: u32) -> u32
        requires { weight ≤ self.now.total }
        ensures { result ≡ down_to self.now.amount self.now.total weight }
    {
        (u64::from(self.amount) * u64::from(weight) / u64::from(self.total)) as u32
    }

    // The same up to a weight that a part was just added to, where those before it get `before`. A part that weighs nothing
    // gets nothing, and costs no division: the hours that a contract leaves out, and all but a few places of a class.
    fn given_with(&self, weight: u32, part: u32, before: u32) -> u32
        requires within { weight ≤ self.now.total }
        requires known { before ≡ down_to self.now.amount self.now.total (weight - part) }
        ensures { result ≡ down_to self.now.amount self.now.total weight }
    {
        if part == 0 {
            before
        } else {
            self.given(weight)
        }
    }

    // Shares the amount, one place to a part: one division a part at most, since what went before is kept.
    fn spread(&self, out: &mut [u32])
        requires { length out.old ≡ length (S.Scale.weights self.now.scale.now) }
        ensures { out.new ≡ shares_of down_to self.now.amount (S.Scale.weights self.now.scale.now) }
    {
        let mut weight: u32 = 0;
        let mut before: u32 = 0;
        // An index and `i + 1`, not a zip with `1..`: of what is written through a zip, the proof learns nothing.
        for (i, place) in out.iter_mut().enumerate() {
            let part = self.scale.weight(i + 1);
            weight += part;
            let upto = self.given_with(weight, part, before);
            *place = upto - before;
            before = upto;
        }
    }

    // The weight of so many parts from the first on. Counted from 0: a range that includes its end costs twice the time.
    fn weight_of_first(&self, parts: usize) -> u32
        requires { parts ≤ length (S.Scale.weights self.now.scale.now) }
        ensures { result ≡ sum (take parts (S.Scale.weights self.now.scale.now)) }
    {
        (0..parts).map(|before| self.scale.weight(before + 1)).sum()
    }

    // What one part gets, 0 outside the scale.
    fn at(&self, part: usize) -> u32
        ensures { result ≡ weight_at (shares_of down_to self.now.amount (S.Scale.weights self.now.scale.now)) part }
    {
        if !(1..=self.scale.length()).contains(&part) {
            return 0;
        }
        let before = self.weight_of_first(part - 1);
        let upto = before + self.scale.weight(part);
        self.given(upto) - self.given(before)
    }
}

// Refuses an amount above its limit.
fn check_amount(amount: u32) -> Result<(), Fault>
    ensures { refusal_of result ≡ amount_check amount }
{
    if amount > MOST {
        return Err(Fault {
            reason: Reason::FieldOutside,
            spot: 1,
        });
    }
    Ok(())
}

// Shares an amount over a scale, one place to a part. A refusal leaves the places as they were.
pub fn share<S: Scale>(amount: u32, scale: &S, out: &mut [u32]) -> Result<(), Fault>
    ensures answer { refusal_of result ≡ share_check amount (length out.old) (S.Scale.weights scale.now) }
    ensures memory { MatchResult result (λ _. Shared down_to amount (S.Scale.weights scale.now) out.new) (λ _. out.new ≡ out.old) }
{
    check_amount(amount)?;
    if out.len() != scale.length() {
        return Err(Fault {
            reason: Reason::ScaleLength,
            spot: 0,
        });
    }
    Sharing::over(scale, amount)?.spread(out);
    Ok(())
}

// The row of a contract: its amount over a scale clipped to its hours.
pub fn fill_row<S: Scale>(
    amount: u32,
    scale: &S,
    first: usize,
    last: usize,
    row: &mut [u32],
) -> Result<(), Fault>
    ensures answer { refusal_of result ≡ share_check amount (length row.old) (clipped first last (S.Scale.weights scale.now)) }
    ensures memory { MatchResult result (λ _. Shared down_to amount (clipped first last (S.Scale.weights scale.now)) row.new) (λ _. row.new ≡ row.old) }
{
    share(amount, &Clip::new(scale, first, last), row)
}

// What one part of a scale gets, 0 outside it.
pub fn share_at<S: Scale>(amount: u32, scale: &S, part: usize) -> Result<u32, Fault>
    ensures answer { refusal_of result ≡ part_check amount (S.Scale.weights scale.now) }
    ensures value { IfOk result (λ x. x ≡ weight_at (shares_of down_to amount (S.Scale.weights scale.now)) part) }
{
    check_amount(amount)?;
    Ok(Sharing::over(scale, amount)?.at(part))
}

// The quantity of a contract at an hour: its effective amount over the row scale of its row.
pub fn quantity(effective: u32, row: &[u32], hour: usize) -> Result<u32, Fault>
    ensures answer { refusal_of result ≡ part_check effective row.now }
    ensures value { IfOk result (λ x. x ≡ weight_at (shares_of down_to effective row.now) hour) }
{
    share_at(effective, &RowScale::new(row), hour)
}
