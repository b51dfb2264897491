// The bytes of messages, and the store that takes them.
use std::io;

// Every byte of a store before its first operation; no message has such a byte.
pub(crate) const OTHER: u8 = 255;

// A message: byte k is k mod 251.
pub(crate) fn fill(space: &mut [u8]) {
    for (k, byte) in space.iter_mut().enumerate() {
        *byte = (k % 251) as u8;
    }
}

// How many bytes of the store are changed, and the place behind the last of them.
pub(crate) fn show_changed(to: &impl Print, store: &[u8]) -> io::Result<()> {
    let changed = store.iter().filter(|byte| **byte != OTHER).count();
    let kept = store
        .iter()
        .rev()
        .take_while(|byte| **byte == OTHER)
        .count();
    print!(to; " changed {changed} up to {}", store.len() - kept)
}

// How many bytes of a message do not stand in the store, the message's start at the store's.
pub(crate) fn missing(store: &[u8], whole: &[u8]) -> usize {
    whole
        .iter()
        .zip(store)
        .filter(|(sent, kept)| sent != kept)
        .count()
}
