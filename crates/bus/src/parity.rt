// Odd parity over the eight bytes of a word (2.1, item 19). Byte 0 is the most significant; byte k's parity bit has the weight 2 ^ k.
ghost use Rattle.std.specs.Prelude.{◌≡◌, ◌<◌};
ghost use Rattle.numeric.specs.Bits.{bit_at};
ghost use Rattle.bus.specs.Parity.{byte_at, wrong_bit, parity_of, wrong_of, check_of};

// The bytes that are wrong, in the weights of the parity bits, and how many they are.
#[derive(Clone, Copy, Debug, PartialEq, Eq)]
pub struct Checked {
    pub wrong: u8,
    pub count: u32,
}

// By a shift, as the definition `byte_at` divides; by `to_be_bytes` it would need a law more.
#[tactic(auto, using(crate::proofs::ByteLaws::byte_of_shift))]
fn byte_at(word: u64, k: u32) -> u32
    requires { k < 8 }
    ensures { (result ≡ byte_at k word) × (result < 256) }
{
    ((word >> (56 - 8 * k)) % 256) as u32
}

#[tactic(auto, unfolding(numeric::specs::Bits::bit_at))]
fn bit_at(set: u8, k: u32) -> u32
    requires { k < 8 }
    ensures { (result ≡ bit_at k set) × (result < 2) }
{
    (u32::from(set) >> k) % 2
}

// 1 where a byte and its parity bit together have an even count of ones.
#[tactic(auto, using(crate::proofs::ParityLaws::wrong_of_ones))]
fn wrong_bit(byte: u32, bit: u32) -> u32
    requires { (byte < 256) × (bit < 2) }
    ensures { (result ≡ wrong_bit byte bit) × (result < 2) }
{
    ((2 * byte + bit).count_ones() + 1) % 2
}

#[tactic(auto, unfolding(crate::specs::Parity::wrong_of, numeric::specs::Bits::from_bits, numeric::specs::Bits::sum_below), using(crate::proofs::ParityLaws::wrong_fits, crate::proofs::ParityLaws::wrong_step, crate::proofs::ParityLaws::wrong_step_fits))]
fn wrong_set(word: u64, set: u8) -> u8
    ensures { result ≡ wrong_of word set }
{
    let mut wrong = 0;
    for k in 0..8 {
        wrong += wrong_bit(byte_at(word, k), bit_at(set, k)) << k;
    }
    wrong as u8
}

// A byte's parity bit is 1 exactly where the byte with parity bit 0 is wrong.
#[tactic(auto, using(crate::proofs::ParityLaws::parity_of_wrong))]
pub fn parity(word: u64) -> u8
    ensures { result ≡ parity_of word }
{
    wrong_set(word, 0)
}

#[tactic(auto, using(crate::proofs::ParityLaws::check_of_ones))]
pub fn check(word: u64, set: u8) -> Checked
    ensures { result ≡ check_of word set }
{
    let wrong = wrong_set(word, set);
    Checked {
        wrong,
        count: wrong.count_ones(),
    }
}
