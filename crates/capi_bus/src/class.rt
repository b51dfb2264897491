// An answer's class as two numbers: which class, and the number that it carries, 0 where it carries none. The numbers of the classes are those
// of the C functions `trainer_class` and `trainer_code`: `include/trainer.h` lists them.
ghost use Rattle.std.specs.Prelude.{◌≡◌};
ghost use Rattle.capi_bus.specs.Class.{class_number, carried_of, class_from};

use bus::answer::Class;
use crossing::capped;

#[tactic(auto, unfolding(crate::specs::Class::class_number))]
pub(crate) fn class_number(class: Class) -> u32
    ensures { result ≡ class_number class }
{
    match class {
        Class::NoError => 0,
        Class::NoErrorLock => 1,
        Class::ReservedNoError(_) => 2,
        Class::UserNoError(_) => 3,
        Class::HardwareError => 4,
        Class::IllegalCommand => 5,
        Class::BusSequenceError => 6,
        Class::ReservedError(_) => 7,
        Class::UserError(_) => 8,
    }
}

#[tactic(auto, unfolding(crate::specs::Class::carried_of))]
pub(crate) fn carried_of(class: Class) -> u32
    ensures { result ≡ carried_of class }
{
    match class {
        Class::ReservedNoError(n)
        | Class::UserNoError(n)
        | Class::ReservedError(n)
        | Class::UserError(n) => n.into(),
        _ => 0,
    }
}

// The class that two numbers stand for, if there is one.
#[tactic(auto, unfolding(crate::specs::Class::class_from, crate::specs::Class::plain_class))]
pub(crate) fn class_from(class: u32, carried: u32) -> Option<Class>
    ensures { result ≡ class_from class carried }
{
    let n = capped(carried.into());
    match (class, carried) {
        (0, 0) => Some(Class::NoError),
        (1, 0) => Some(Class::NoErrorLock),
        (2, _) => Some(Class::ReservedNoError(n)),
        (3, _) => Some(Class::UserNoError(n)),
        (4, 0) => Some(Class::HardwareError),
        (5, 0) => Some(Class::IllegalCommand),
        (6, 0) => Some(Class::BusSequenceError),
        (7, _) => Some(Class::ReservedError(n)),
        (8, _) => Some(Class::UserError(n)),
        _ => None,
    }
}
