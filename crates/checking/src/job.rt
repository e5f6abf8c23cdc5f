// What rows are checked against.
ghost use Rattle.chains.specs.Chains.{Once};
ghost use Rattle.checking.specs.Questions.{Answerable};

use chains::limits::NUMBERS;
use chains::message::Message;

// The blocks, each listed once, what each takes by its number, and the messages between them, of sizes that machines
// answer for. Who can prove that makes the value as it stands.
#[derive(Clone, Copy)]
pub struct Job<'a> {
    pub blocks: &'a [u32],
    pub times: &'a [u64; NUMBERS],
    pub messages: &'a [Message],
    ghost once: { Once blocks.now },
    ghost sized: { Answerable messages.now },
}
