// A text handed out to a caller's bytes.
ghost use Rattle.std.specs.Prelude.{◌≡◌};
ghost use Rattle.page.specs.Replies.{filled, reply};

// Writes the text to the front of the output where it fits, and answers its length; else writes nothing, and answers
// minus the bytes that are needed. One number says both, since a C caller reads it.
pub fn hand_out(text: &[u8], output: &mut [u8]) -> i64
    ensures value { result ≡ reply text.now output.old }
    ensures after { output.new ≡ filled text.now output.old }
{
    let needed = text.len();
    if output.len() < needed {
        return -(needed as i64);
    }
    output[0..needed].copy_from_slice(text);
    needed as i64
}
