// Words out of bytes, the least byte first.
ghost use Rattle.std.specs.Prelude.{◌≡◌};
ghost use Rattle.words.specs.Bytes.{taken_count, taken};

// Puts the words of the bytes to the front of a list, and answers how many; None, and nothing is put, where the bytes
// are not whole words or the list is too short.
pub fn words_of_bytes(bytes: &[u8], into: &mut [u32]) -> Option<usize>
    ensures value { result ≡ taken_count bytes.now into.old }
    ensures after { into.new ≡ taken bytes.now into.old }
{
    let (words, rest) = bytes.as_chunks::<4>();
    if !rest.is_empty() || words.len() > into.len() {
        return None;
    }
    // By index: what is written through `zip` over `iter_mut` is not known to a proof.
    for (i, word) in words.iter().enumerate() {
        into[i] = u32::from_le_bytes(*word);
    }
    Some(words.len())
}
