// The cold start for programs in other languages: `include/trainer.h` declares it. Slices cross as pointer and length, all else as numbers.
#![tactic(auto)]

ghost use Rattle.std.specs.Prelude.{◌≡◌};
ghost use Rattle.capi_start.specs.Start.{start_returned, start_cache, start_directory};

use boards::settings_of;
use layout::encode;
use order::Refusal;

// Starts cold with the boards that the set `write_through` spells and with `steal` off (0) or on (1), and writes the directory.
#[tactic(auto, unfolding(crate::specs::Start::chosen, crate::specs::Start::choosable, crate::specs::Start::start_returned, crate::specs::Start::start_cache, crate::specs::Start::start_directory, layout::specs::Directory::directory_put))]
#[unsafe(no_mangle)]
pub extern "C" fn trainer_cold_start(
    memory: &[u8],
    cache: &mut [u8],
    write_through: u32,
    steal: u32,
    directory: &mut [u8],
) -> u32
    ensures { (result ≡ start_returned memory.now cache.old write_through steal directory.old) × (cache.new ≡ start_cache memory.now cache.old write_through steal directory.old) × (directory.new ≡ start_directory write_through steal directory.old) }
{
    if directory.len() < 194 {
        return Refusal::NoRoom.into();
    }
    if write_through > 15 {
        return Refusal::NoUnit.into();
    }
    if steal > 1 {
        return Refusal::FieldRange.into();
    }
    let settings = settings_of(write_through as u8, steal == 1);
    // A cold start that the machine refuses has its directory too.
    match machine::cold_start(settings, memory, cache) {
        Ok(started) => {
            encode(started, directory);
            0
        }
        Err(refused) => {
            encode(refused.directory, directory);
            refused.refusal.into()
        }
    }
}
