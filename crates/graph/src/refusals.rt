// The numbers by which refusals are known outside, and the text that shows them.
ghost use Rattle.std.specs.Prelude.{◌≡◌};
ghost use Rattle.graph.specs.Refusals.{number_of, place_of};

use crate::records::Refusal;
use std::fmt;

// The layer of every refusal of a call on a graph.
pub const LAYER: u32 = 1;

// Number and place go by the cases of this kind, and places differ in width: a trait over all kinds would say only the names.
impl Refusal {
    pub fn number(&self) -> u32
        ensures { result ≡ number_of self.now }
    {
        match self {
            Refusal::WrongStage => 1,
            Refusal::TimeOutOfRange => 2,
            Refusal::TooManyTasks => 3,
            Refusal::NoSuchTask(_) => 4,
            Refusal::SelfLink(_) => 5,
            Refusal::SizeTooLarge => 6,
            Refusal::AlreadyLinked(_) => 7,
            Refusal::TooManyLinks => 8,
            Refusal::NoTask => 9,
            Refusal::Circle(_) => 10,
            Refusal::OutputTooShort(_) => 18,
        }
    }

    pub fn place(&self) -> u32
        ensures { result ≡ place_of self.now }
    {
        match self {
            Refusal::NoSuchTask(place)
            | Refusal::SelfLink(place)
            | Refusal::AlreadyLinked(place)
            | Refusal::Circle(place)
            | Refusal::OutputTooShort(place) => *place,
            Refusal::WrongStage
            | Refusal::TimeOutOfRange
            | Refusal::TooManyTasks
            | Refusal::SizeTooLarge
            | Refusal::TooManyLinks
            | Refusal::NoTask => 0,
        }
    }
}

// A refusal is shown by its layer, its number and its place.
impl fmt::Display for Refusal {
    ghost use Rattle.std.specs.Prelude.{Some};
    ghost use Rattle.graph.specs.Refusals.{text_of};

    ghost output = { λ why. Some (text_of why) };

    fn fmt<W: fmt::Write>(&self, f: &mut fmt::Formatter<W>) -> fmt::Result {
        let number = self.number();
        let place = self.place();
        write!(f, "{LAYER} {number} {place}")
    }
}
