// A reader read into a buffer, with a read that failed told from the end. Which bytes come is the system's: no contract speaks of them.
#![tactic(auto)]

ghost use Rattle.std.specs.Prelude.{◌≡◌, ◌≤◌, length, take, MatchResult};

use std::io::Read;

// A read failed, and how many bytes were read before it.
#[derive(Clone, Copy, Debug, PartialEq, Eq)]
pub struct ReadError {
    pub size: usize,
}

// Reads until the buffer is full, the input ends or a read fails, and says how many bytes were read. They stand at the start of the buffer.
// How many bytes a read gives is the system's, so no `for` goes over the buffer.
pub fn read_input<R: Read>(from: &mut R, buffer: &mut [u8]) -> Result<usize, ReadError>
    ensures { MatchResult result (λ size. (size ≤ length buffer.new) × (size ≡ length (take size buffer.new))) (λ error. (error.size ≤ length buffer.new) × (error.size ≡ length (take error.size buffer.new))) }
{
    let mut size = 0;
    while size < buffer.len() {
        match from.read(&mut buffer[size..]) {
            Ok(0) => break,
            Ok(n) => size += n,
            Err(_) => return Err(ReadError { size }),
        }
    }
    Ok(size)
}
