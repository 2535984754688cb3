// What holds of sharing by every sound rule of rounding, and that rounding down is such a rule. Each function is there for its
// clauses: what it answers is the number that its theorem is of, or 0 where it is of none.
ghost use Rattle.scale.specs.Fairness.{Bounds, SoundIsFair};
ghost use Rattle.scale.specs.Shares.{Sound, down_to, RoundsWith};

// By every sound rule the shares total the amount, runs of parts lie under one from their exact share, and those of a share shared again under two.
pub fn sound_rules_are_fair() -> u8
    ensures { SoundIsFair }
{
    0
}

pub fn rounding_down_is_sound() -> u8
    ensures { Sound down_to }
{
    0
}

// By every sound rule the shares total the amount. Under how many kWh each run of parts lies from its exact share: of an
// amount shared over weights, and of what is left of the amount, shared over the row so made.
pub fn run_bounds() -> (u32, u32)
    ensures fair { SoundIsFair }
    ensures bounds { Bounds result.0 result.1 }
{
    (1, 2)
}

// What rounding down adds to a running total before the fraction is dropped: nothing. That makes it sound.
pub fn rounding_lead() -> u32
    ensures { RoundsWith result down_to }
{
    let lead = 0;
    lead
}
