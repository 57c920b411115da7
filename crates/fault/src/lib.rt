// Why a call is refused, and at which place.
#![tactic(auto)]

ghost use Rattle.std.specs.Prelude.{◌≡◌};
ghost use Rattle.fault.specs.Refusals.{number, placed_at, refusal};

// A reason for a refusal. Its number is what a user sees: below 20 from the input, from 20 on from the state.
#[derive(Clone, Copy, PartialEq, Eq, Debug)]
pub enum Fault {
    Unknown = 1,
    Malformed = 2,
    Absent = 3,
    OverCapacity = 4,
    NoRow = 5,
    Overflow = 6,
    ZeroDivisor = 7,
    Remainder = 8,
    NegativeExponent = 9,
    OverLimit = 10,
    BadLine = 11,
    Stack = 12,
    Sealed = 20,
    RuleFull = 21,
    RulePassed = 22,
    NotPassed = 23,
    Outdated = 24,
    BufferShort = 25,
}

impl From<Fault> for u8 {
    ghost from_gives = { λ f n. n ≡ number f };

    fn from(fault: Fault) -> u8 {
        fault as u8
    }
}

// A reason with its place: the step of a rule or the line of a text, both from 0, and 0 for every other call.
#[derive(Clone, Copy, PartialEq, Eq, Debug)]
pub struct Refusal {
    pub fault: Fault,
    pub place: usize,
}

// What `?` makes of a fault that has no place of its own.
impl From<Fault> for Refusal {
    ghost from_gives = { λ f r. r ≡ refusal f 0 };

    fn from(fault: Fault) -> Refusal {
        Refusal { fault, place: 0 }
    }
}

// The same answer, a fault with its place.
pub fn placed<T>(answer: Result<T, Fault>, place: usize) -> Result<T, Refusal>
    ensures { result ≡ placed_at place answer }
{
    answer.map_err(|fault| Refusal { fault, place })
}
