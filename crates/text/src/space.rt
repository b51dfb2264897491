// Bytes put at a place of a lent space, all of them or none.
ghost use Rattle.std.specs.Prelude.{◌≡◌, ◌+◌, ◌≤◌, leb, length};
ghost use Rattle.std.proofs.lemmas.List.Edits.{sets};
ghost use Rattle.text.specs.Space.{placed};

// Whether `size` bytes at the place `at` lie within a space of `room` bytes.
pub(crate) fn has_room(room: usize, at: usize, size: usize) -> bool
    ensures { result ≡ leb (at + size) room }
{
    size <= room && at <= room - size
}

// Byte by byte: `copy_from_slice` of any length would have the archive for C need `memmove` from outside.
#[tactic(auto, using(crate::proofs::SpaceLaws::sets_next))]
fn copy(out: &mut [u8], at: usize, word: &[u8])
    requires { at + length word.now ≤ length out.old }
    ensures { out.new ≡ sets out.old at word.now }
{
    for (i, byte) in word.iter().enumerate() {
        out[at + i] = *byte;
    }
}

// Puts the bytes of `word` into `out` from the place `at` on, where all of them have room. The answer is how many they are.
#[tactic(auto, using(crate::proofs::SpaceLaws::placed_room, crate::proofs::SpaceLaws::placed_none))]
pub fn put_word(out: &mut [u8], at: usize, word: &[u8]) -> usize
    ensures { (result ≡ length word.now) × (out.new ≡ placed out.old at word.now) }
{
    let size = word.len();
    if has_room(out.len(), at, size) {
        copy(out, at, word);
    }
    size
}
