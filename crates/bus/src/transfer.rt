// The signals of one transfer (4.1), which may be locked (4.6).
ghost use Rattle.std.specs.Prelude.{◌≡◌};
ghost use Rattle.bus.specs.Transfer.{plan_of};

use order::Refusal;

// The levels in one cycle, and the level of ET at the request; true is asserted.
#[derive(Clone, Copy, Debug, PartialEq, Eq)]
pub struct SignalPlan {
    pub bs: bool,
    pub bur: bool,
    pub et: bool,
    pub et_at_request: bool,
}

#[tactic(auto, unfolding(crate::specs::Transfer::plan_of, crate::specs::Transfer::et_raised_at_request, numeric::specs::Range::within))]
pub fn plan(cycles: u32, cycle: u32, locked: bool) -> Result<SignalPlan, Refusal>
    ensures { result ≡ plan_of cycles cycle locked }
{
    if cycles > 64 || cycle < 1 || cycle > cycles {
        return Err(Refusal::FieldRange);
    }
    Ok(SignalPlan {
        bs: cycle == 1,
        bur: cycle + 1 <= cycles,
        et: cycle + 2 <= cycles,
        et_at_request: cycles >= 2 || locked,
    })
}
