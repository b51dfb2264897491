// The settings as numbers: the set of the units that have a write-through board, unit 0 with weight 1, unit 3 with weight 8; and steal beside it.
#![tactic(auto)]

ghost use Rattle.std.specs.Prelude.{◌≡◌};
ghost use Rattle.boards.specs.Boards.{board_of, settings_of, set_of};

use coherence::{Board, Kind, Settings};
use slots::is_through;

#[tactic(auto, unfolding(crate::specs::Boards::board_of))]
fn board(through: bool) -> Board
    ensures { result ≡ board_of through }
{
    let kind = if through {
        Kind::WriteThrough
    } else {
        Kind::Copyback
    };
    Board { kind }
}

// The settings with the boards that a set spells. What stands above weight 8 is not looked at.
pub fn settings_of(set: u8, steal: bool) -> Settings
    ensures { result ≡ settings_of set steal }
{
    Settings {
        boards: [1, 2, 4, 8].map(|weight| board(set & weight != 0)),
        steal,
    }
}

// The set that spells the boards.
#[tactic(auto, unfolding(numeric::specs::Bits::from_bits, numeric::specs::Bits::sum_below))]
pub fn set_of(settings: Settings) -> u8
    ensures { result ≡ set_of settings }
{
    let mut set = 0;
    for unit in 0..4 {
        set += u8::from(is_through(settings, unit)) << unit;
    }
    set
}
