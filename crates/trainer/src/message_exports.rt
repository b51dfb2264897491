// Messages between boards for programs in other languages.
ghost use Rattle.std.specs.Prelude.{◌≡◌};
ghost use Rattle.capi_message.specs.Operation.{operation_from};
ghost use Rattle.capi_message.specs.Receive.{receive_returned, receive_receiver, receive_store, receive_completion};
ghost use Rattle.capi_message.specs.Divide.{divide_returned, divide_operations, operation_sequence, operation_offset, operation_length};

// Gives an operation to a receiver.
#[unsafe(no_mangle)]
pub extern "C" fn trainer_receive(
    receiver: &mut [u64],
    store: &mut [u8],
    sequence: u32,
    sender: u32,
    aid: u32,
    bytes: &[u8],
    completion: &mut [u64],
) -> u32
    ensures { (result ≡ receive_returned receiver.old store.old (operation_from sequence sender aid bytes.now) completion.old) × (receiver.new ≡ receive_receiver receiver.old store.old (operation_from sequence sender aid bytes.now) completion.old) × (store.new ≡ receive_store receiver.old store.old (operation_from sequence sender aid bytes.now) completion.old) × (completion.new ≡ receive_completion receiver.old store.old (operation_from sequence sender aid bytes.now) completion.old) }
{
    capi_message::trainer_receive(receiver, store, sequence, sender, aid, bytes, completion)
}

// How many operations a message makes.
#[unsafe(no_mangle)]
pub extern "C" fn trainer_divide(
    message: &[u8],
    sender: u32,
    aid: u32,
    operations: &mut usize,
) -> u32
    ensures { (result ≡ divide_returned message.now sender aid) × (operations.new ≡ divide_operations message.now sender aid operations.old) }
{
    capi_message::trainer_divide(message, sender, aid, operations)
}

// Operation `index` of a message, counted from 0.
#[unsafe(no_mangle)]
pub extern "C" fn trainer_operation(
    message: &[u8],
    sender: u32,
    aid: u32,
    index: usize,
    sequence: &mut u32,
    offset: &mut usize,
    length: &mut usize,
) -> u32
    ensures { (result ≡ divide_returned message.now sender aid) × (sequence.new ≡ operation_sequence message.now sender aid index sequence.old) × (offset.new ≡ operation_offset message.now sender aid index offset.old) × (length.new ≡ operation_length message.now sender aid index length.old) }
{
    capi_message::trainer_operation(message, sender, aid, index, sequence, offset, length)
}
