// A whole list of accesses in one call (document 02, T-03): the loaded values go to a lent space, and the first refused access ends the list.
#![tactic(auto)]

ghost use Rattle.std.specs.Prelude.{◌≡◌, take};
ghost use Rattle.batch_rules.specs.Batch.{batch, batch_result};
ghost use Rattle.batch_rules.specs.Outcome.{told};

use batch_outcome::{number_of, open};
use batch_rules::{Access, Outcome};
use coherence::Directory;
use machine::run;

// The accesses of the list in turn, up to the first refused one; each value that is loaded goes to its access's place, 0 to those of stores and flushes.
pub fn run_batch(
    list: &[Access],
    values: &mut [u32],
    directory: Directory,
    memory: &mut [u8],
    cache: &mut [u8],
) -> Outcome
    ensures { batch (told result) values.new memory.new cache.new ≡ batch_result list.now values.old directory memory.old cache.old }
{
    let opened = open(directory, list.len(), values.len());
    if opened.refusal != 0 {
        return opened;
    }
    let mut directory = directory;
    let mut orders = 0;
    for (index, access) in list.iter().enumerate() {
        match run(directory, memory, cache, access.call) {
            Ok(accepted) => {
                values[index] = accepted.value;
                orders += accepted.orders.count;
                directory = accepted.directory;
            }
            Err(refusal) => {
                return Outcome {
                    refusal: number_of(Some(refusal)),
                    index,
                    orders,
                    directory,
                };
            }
        }
    }
    Outcome {
        refusal: 0,
        index: list.len(),
        orders,
        directory,
    }
}

// The first `count` accesses of an array, all of them if it has no more. It stays beside `run_batch`: a public function with its clause, which the edits
// `whole_array_run` and `at_most_below` hold.
pub fn run_array(
    list: [Access; 64],
    count: usize,
    values: &mut [u32],
    directory: Directory,
    memory: &mut [u8],
    cache: &mut [u8],
) -> Outcome
    ensures { batch (told result) values.new memory.new cache.new ≡ batch_result (take count list) values.old directory memory.old cache.old }
{
    run_batch(&list[..count.min(64)], values, directory, memory, cache)
}
