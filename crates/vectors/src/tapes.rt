// Rows of the tape and the drill.
use crate::rows::{Row, put, show_all, show_bytes};
use std::io;

// The refusal, the place after the record or of the refused number, and the record's kind and fields.
fn read(to: &impl Print, tape: &[u8], place: usize) -> io::Result<()> {
    let mut next = 0usize;
    let mut numbers = [0u64; 7];
    let refusal = capi_tape::trainer_read_record(tape, place, &mut next, &mut numbers);
    print!(to; " {refusal} {next}")?;
    show_all(to, &numbers)
}

// The refusal, how many bytes the text has, and the text.
fn drill(to: &impl Print, tape: &[u8], text: &mut [u8]) -> io::Result<()> {
    let mut written = 0usize;
    let refusal = capi_drill::trainer_drill(tape, text, &mut written);
    print!(to; " {refusal} {written}")?;
    if written <= text.len() {
        println!(to; "")?;
        put(to, &text[..written])?;
    }
    Ok(())
}

// A place and a tape to read there.
pub(crate) fn read_row(to: &impl Print, given: Row) -> io::Result<()> {
    let bytes = given.bytes();
    match bytes[..given.count % 48].split_first() {
        None => Ok(()),
        Some((_, tape)) => read(to, tape, given.values[0] as usize),
    }
}

// The room for a text and a tape to drill.
pub(crate) fn drill_row(to: &impl Print, given: Row) -> io::Result<()> {
    let bytes = given.bytes();
    match bytes[..given.count % 48].split_first() {
        None => Ok(()),
        Some((_, tape)) => {
            let mut text = [0u8; 1024];
            let room = given.values[0] as usize % 1025;
            drill(to, tape, &mut text[..room])
        }
    }
}

// Of asking for the size: the refusal and the size. Of writing: the refusal, how many bytes were written, and all bytes of the space.
fn write(to: &impl Print, numbers: &[u64], space: &mut [u8]) -> io::Result<()> {
    let mut size = 0usize;
    let unknown = capi_size::trainer_record_size(numbers, &mut size);
    let mut written = 0usize;
    let refusal = capi_tape::trainer_write_record(numbers, space, &mut written);
    print!(to; " {unknown} {size} {refusal} {written}")?;
    show_bytes(to, space)
}

// The size of a space whose bytes are 238, and the seven numbers of a record.
pub(crate) fn writing(to: &impl Print, given: Row) -> io::Result<()> {
    let numbers = given.values;
    let mut space = [238u8; 48];
    let room = (numbers[0] % 49) as usize;
    write(to, &numbers[1..8], &mut space[..room])
}
