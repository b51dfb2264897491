// Answer codes (Table 7).
ghost use Rattle.std.specs.Prelude.{◌≡◌};
ghost use Rattle.bus.specs.Answer.{class_of, code_of, is_error};

use order::Refusal;

#[derive(Clone, Copy, Debug, PartialEq, Eq)]
pub enum Class {
    NoError,
    NoErrorLock,
    // carries the code
    ReservedNoError(u8),
    // carries the code less 64
    UserNoError(u8),
    HardwareError,
    IllegalCommand,
    BusSequenceError,
    // carries the code
    ReservedError(u8),
    // carries the code less 192
    UserError(u8),
}

impl From<u8> for Class {
    ghost from_gives = { λ code class. class ≡ class_of code };

    #[tactic(auto, unfolding(crate::specs::Answer::class_of))]
    fn from(code: u8) -> Class {
        match code {
            0 => Class::NoError,
            1 => Class::NoErrorLock,
            2..=63 => Class::ReservedNoError(code),
            64..=127 => Class::UserNoError(code - 64),
            128 => Class::HardwareError,
            129 => Class::IllegalCommand,
            130 => Class::BusSequenceError,
            131..=191 => Class::ReservedError(code),
            192..=255 => Class::UserError(code - 192),
        }
    }
}

// A class whose carried number isn't one of its row has no code.
impl TryFrom<Class> for u8 {
    type Error = Refusal;

    ghost try_from_gives = { λ class r. r ≡ code_of class };

    #[tactic(auto, unfolding(crate::specs::Answer::code_of, crate::specs::Answer::code_number, crate::specs::Answer::in_row, numeric::specs::Range::within))]
    fn try_from(class: Class) -> Result<u8, Refusal> {
        match class {
            Class::NoError => Ok(0),
            Class::NoErrorLock => Ok(1),
            Class::ReservedNoError(n @ 2..=63) => Ok(n),
            Class::UserNoError(n @ 0..=63) => Ok(n + 64),
            Class::HardwareError => Ok(128),
            Class::IllegalCommand => Ok(129),
            Class::BusSequenceError => Ok(130),
            Class::ReservedError(n @ 131..=191) => Ok(n),
            Class::UserError(n @ 0..=63) => Ok(n + 192),
            _ => Err(Refusal::FieldRange),
        }
    }
}

#[tactic(auto, unfolding(crate::specs::Answer::is_error))]
pub fn is_error(code: u8) -> bool
    ensures { result ≡ is_error code }
{
    128 <= code
}
