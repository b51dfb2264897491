// The cold start for programs in other languages.
ghost use Rattle.std.specs.Prelude.{◌≡◌};
ghost use Rattle.capi_start.specs.Start.{start_returned, start_cache, start_directory};

// Starts cold with the boards that the set `write_through` spells and with `steal` off (0) or on (1), and writes the directory.
#[unsafe(no_mangle)]
pub extern "C" fn trainer_cold_start(
    memory: &[u8],
    cache: &mut [u8],
    write_through: u32,
    steal: u32,
    directory: &mut [u8],
) -> u32
    ensures { (result ≡ start_returned memory.now cache.old write_through steal directory.old) × (cache.new ≡ start_cache memory.now cache.old write_through steal directory.old) × (directory.new ≡ start_directory write_through steal directory.old) }
{
    capi_start::trainer_cold_start(memory, cache, write_through, steal, directory)
}
