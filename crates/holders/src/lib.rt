// Who holds a block: the set of the units that hold it, unit 0 having weight 1, unit 3 weight 8, and how many they are.
#![tactic(auto)]

ghost use Rattle.std.specs.Prelude.{◌≡◌};
ghost use Rattle.holders.specs.Holders.{holders_answer, told_holders};

use coherence::Directory;
use holder_sets::set_at;
use order::Refusal;
use soundness::is_sound;

#[derive(Clone, Copy, Debug, PartialEq, Eq)]
pub struct BlockHolders {
    pub set: u8,
    pub count: u32,
}

// The holders of the block, as the directory keeps them: the test of the directory, and one look.
pub fn holders(directory: Directory, block: u8) -> Result<BlockHolders, Refusal>
    ensures { told_holders result ≡ holders_answer directory block }
{
    if !is_sound(directory) {
        return Err(Refusal::BrokenDirectory);
    }
    if block > 63 {
        return Err(Refusal::BadAddress);
    }
    let set = set_at(directory.holders, block);
    Ok(BlockHolders {
        set,
        count: set.count_ones(),
    })
}
