// The bus handler: which unit the bus is granted to, and the lock (document 01, "The bus handler").
#![tactic(auto)]

ghost use Rattle.std.specs.Prelude.{◌≡◌, true, ◌≤◌};
ghost use Rattle.handler.specs.Handler.{turn, answered, locked, moved, low_grant, grant_next, state_allowed, allowed, arbitration, initial, told};
ghost use Rattle.numeric.specs.Bits.{contains};

use order::Refusal;

// How a unit asks for the bus: by RQH or by RQL.
#[derive(Clone, Copy, Debug, PartialEq, Eq)]
pub enum Class {
    High,
    Low,
}

#[derive(Clone, Copy, Debug, PartialEq, Eq)]
pub struct Grant {
    pub class: Class,
    pub unit: u8,
}

// What the handler keeps from call to call: the last unit granted in each class, and the lock's owner.
#[derive(Clone, Copy, Debug, PartialEq, Eq)]
pub struct State {
    pub last_high: u8,
    pub last_low: u8,
    pub lock: Option<u8>,
}

impl State {
    #[tactic(auto, unfolding(crate::specs::Handler::initial))]
    pub fn fresh() -> State
        ensures { result ≡ initial }
    {
        State {
            last_high: 7,
            last_low: 7,
            lock: None,
        }
    }

    // One call: RQH and RQL as sets in which unit u has weight 2 to the power u, and whether LCK is asserted. A refused call leaves the state.
    #[tactic(auto, using(crate::proofs::Allowed::high_set_allowed, crate::proofs::Allowed::low_set_allowed, crate::proofs::Allowed::locked_call_allowed, crate::proofs::GrantCases::tells_refused, crate::proofs::GrantCases::tells_granted, crate::proofs::GrantCases::tells_nobody))]
    pub fn arbitrate(&mut self, high: u16, low: u16, lck: bool) -> Result<Option<Grant>, Refusal>
        ensures { told result self.new ≡ arbitration self.old high low lck }
    {
        if !self.is_allowed(high, low) {
            return Err(Refusal::BadState);
        }
        self.step_lock(lck);
        let grant = self.grant(high as u8, low as u8);
        if let Some(given) = grant {
            self.move_to(given);
        }
        Ok(grant)
    }

    #[tactic(auto, unfolding(crate::specs::Handler::allowed, crate::specs::Handler::sets_allowed, crate::specs::Handler::state_allowed, crate::specs::Handler::lock_allowed))]
    fn is_allowed(&self, high: u16, low: u16) -> bool
        ensures { result ≡ allowed self.now high low }
    {
        let sets = high <= 255 && low <= 255;
        let lasts = self.last_high <= 7 && self.last_low <= 7;
        sets && lasts && self.lock.is_none_or(|owner| owner <= 7)
    }

    // LCK negated clears the owner; asserted, it makes the last low unit the owner where there is none.
    #[tactic(auto, unfolding(crate::specs::Handler::locked, crate::specs::Handler::lock_next))]
    fn step_lock(&mut self, lck: bool)
        ensures { self.new ≡ locked lck self.old }
    {
        self.lock = if lck {
            self.lock.or(Some(self.last_low))
        } else {
            None
        };
    }

    #[tactic(auto, using(crate::proofs::Allowed::last_high_allowed, crate::proofs::GrantCases::gives_high, crate::proofs::GrantCases::gives_next))]
    fn grant(&self, high: u8, low: u8) -> Option<Grant>
        requires { state_allowed self.now ≡ true }
        ensures { answered result self.now ≡ grant_next high low self.now }
    {
        match first_met(high, self.last_high) {
            Some(unit) => Some(Grant {
                class: Class::High,
                unit,
            }),
            None => self.low_grant(low),
        }
    }

    // A grant sets the last unit of its own class only.
    #[tactic(auto, unfolding(crate::specs::Handler::moved))]
    fn move_to(&mut self, grant: Grant)
        ensures { self.new ≡ moved grant.class grant.unit self.old }
    {
        match grant.class {
            Class::High => self.last_high = grant.unit,
            Class::Low => self.last_low = grant.unit,
        }
    }

    // Under a lock the owner alone.
    #[tactic(auto, using(crate::proofs::Allowed::last_low_allowed, crate::proofs::Allowed::held_allowed, crate::proofs::GrantCases::gives_owner, crate::proofs::GrantCases::gives_no_other, crate::proofs::GrantCases::gives_low, crate::proofs::GrantCases::gives_no_low))]
    fn low_grant(&self, low: u8) -> Option<Grant>
        requires { state_allowed self.now ≡ true }
        ensures { answered result self.now ≡ low_grant self.now.lock low self.now }
    {
        let unit = match self.lock {
            Some(owner) => contains(low, owner).then_some(owner)?,
            None => first_met(low, self.last_low)?,
        };
        Some(Grant {
            class: Class::Low,
            unit,
        })
    }
}

// The first member met counting upward from `last` + 1, 7 being followed by 0.
#[tactic(auto, unfolding(crate::specs::Handler::met), using(crate::proofs::RoundRobin::turn_here, crate::proofs::RoundRobin::turn_none, crate::proofs::RoundRobin::passed_on))]
fn first_met(set: u8, last: u8) -> Option<u8>
    requires { last ≤ 7 }
    ensures { result ≡ turn set last }
{
    for passed in 0..8 {
        let unit = (last + 1 + passed) % 8;
        if contains(set, unit) {
            return Some(unit);
        }
    }
    None
}

// `contains` is a definition of `numeric`, which has no code; `bus` takes a bit of its set as a number.
#[tactic(auto, unfolding(numeric::specs::Bits::bit_at, numeric::specs::Bits::contains))]
fn contains(set: u8, unit: u8) -> bool
    requires { unit ≤ 7 }
    ensures { result ≡ contains set unit }
{
    (set >> unit) % 2 == 1
}
