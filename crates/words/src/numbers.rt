// The numbers by which a reader's refusals are known outside, and the text that is printed of them.
ghost use Rattle.std.specs.Prelude.{◌≡◌, Some};
ghost use Rattle.words.specs.Refusals.{number_of, place_of, below as lower, text_of};

use crate::refusal::ReadRefusal;
use graph::records::Refusal;
use std::fmt;

// Number and place go by the cases of this kind, and places differ in width: a trait over all kinds would say only the names.
impl ReadRefusal {
    pub fn number(&self) -> u32
        ensures { result ≡ number_of self.now }
    {
        match self {
            ReadRefusal::TooFewWords(_) => 19,
            ReadRefusal::WrongEdition => 20,
            ReadRefusal::CountTooLarge(_) => 21,
            ReadRefusal::WrongLength(_) => 22,
            ReadRefusal::WrongPointer(_) => 23,
            ReadRefusal::NotNamedOnce(_) => 24,
            ReadRefusal::Refused(_, why) => why.number(),
        }
    }

    // A count, or the place of the word at fault, from 0.
    pub fn place(&self) -> u64
        ensures { result ≡ place_of self.now }
    {
        match self {
            ReadRefusal::WrongEdition => 0,
            ReadRefusal::TooFewWords(count) | ReadRefusal::WrongLength(count) => *count as u64,
            ReadRefusal::CountTooLarge(at)
            | ReadRefusal::WrongPointer(at)
            | ReadRefusal::NotNamedOnce(at)
            | ReadRefusal::Refused(at, _) => u64::from(*at),
        }
    }

    // What adding or linking would have said.
    pub fn below(&self) -> Option<Refusal>
        ensures { result ≡ lower self.now }
    {
        match self {
            ReadRefusal::Refused(_, why) => Some(*why),
            _ => None,
        }
    }
}

// The layer of every refusal of a list of words.
pub const LAYER: u32 = 2;

// A refusal is shown by its layer, its number and its place, and then by what adding or linking would have said.
impl fmt::Display for ReadRefusal {
    ghost output = { λ why. Some (text_of why) };

    fn fmt<W: fmt::Write>(&self, f: &mut fmt::Formatter<W>) -> fmt::Result {
        let number = self.number();
        let place = self.place();
        match self.below() {
            Some(why) => write!(f, "{LAYER} {number} {place} {why}"),
            None => write!(f, "{LAYER} {number} {place}"),
        }
    }
}
