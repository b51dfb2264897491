// Messages between boards for programs in other languages: `include/trainer.h` declares these functions. Slices cross as pointer and
// length, all else as numbers. Each function is total, and a refused call writes nothing.
#![tactic(auto)]

mod layout;
mod operation;

ghost use Rattle.std.specs.Prelude.{◌≡◌};
ghost use Rattle.capi_message.specs.Operation.{operation_from};
ghost use Rattle.capi_message.specs.Receive.{receive_returned, receive_receiver, receive_store, receive_completion};
ghost use Rattle.capi_message.specs.Divide.{divide_returned, divide_operations, operation_sequence, operation_offset, operation_length};

use layout::{put, receiver_from};
use operation::{number_at, operation_from, source_from};
use order::Refusal;

// Gives an operation to a receiver.
#[unsafe(no_mangle)]
pub extern "C" fn trainer_receive(
    receiver: &mut [u64],
    store: &mut [u8],
    sequence: u32,
    sender: u32,
    aid: u32,
    bytes: &[u8],
    completion: &mut [u64],
) -> u32
    ensures { (result ≡ receive_returned receiver.old store.old (operation_from sequence sender aid bytes.now) completion.old) × (receiver.new ≡ receive_receiver receiver.old store.old (operation_from sequence sender aid bytes.now) completion.old) × (store.new ≡ receive_store receiver.old store.old (operation_from sequence sender aid bytes.now) completion.old) × (completion.new ≡ receive_completion receiver.old store.old (operation_from sequence sender aid bytes.now) completion.old) }
{
    if receiver.len() < 4 || completion.len() < 4 {
        return Refusal::NoRoom.into();
    }
    let before = receiver_from(receiver);
    let operation = operation_from(sequence, sender, aid, bytes);
    match message::receive(before, store, operation) {
        Ok(done) => {
            put(done.receiver, receiver);
            put(done.completion, completion);
            0
        }
        Err(refused) => refused.into(),
    }
}

// How many operations a message makes.
#[unsafe(no_mangle)]
pub extern "C" fn trainer_divide(
    message: &[u8],
    sender: u32,
    aid: u32,
    operations: &mut usize,
) -> u32
    ensures { (result ≡ divide_returned message.now sender aid) × (operations.new ≡ divide_operations message.now sender aid operations.old) }
{
    let source = source_from(u64::from(sender), u64::from(aid));
    match message::divide(message, source) {
        Ok(count) => {
            *operations = count;
            0
        }
        Err(refusal) => refusal.into(),
    }
}

// Operation `index` of a message, counted from 0.
#[unsafe(no_mangle)]
pub extern "C" fn trainer_operation(
    message: &[u8],
    sender: u32,
    aid: u32,
    index: usize,
    sequence: &mut u32,
    offset: &mut usize,
    length: &mut usize,
) -> u32
    ensures { (result ≡ divide_returned message.now sender aid) × (sequence.new ≡ operation_sequence message.now sender aid index sequence.old) × (offset.new ≡ operation_offset message.now sender aid index offset.old) × (length.new ≡ operation_length message.now sender aid index length.old) }
{
    let source = source_from(u64::from(sender), u64::from(aid));
    match message::divide(message, source) {
        Ok(count) => {
            *sequence = number_at(message, source, index);
            *offset = if index < count { 256 * index } else { 0 };
            *length = message::part_at(message, source, index).len();
            0
        }
        Err(refusal) => refusal.into(),
    }
}
