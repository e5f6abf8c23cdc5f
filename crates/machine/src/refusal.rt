// Why a machine refuses a question, or refuses to be made.
ghost use Rattle.std.specs.Prelude.{◌≡◌, Some};
ghost use Rattle.machine.specs.Refusals.{layer_of, number_of, place_of, text_of};

use std::fmt;

#[derive(Clone, Copy, PartialEq, Eq, Debug)]
pub enum MachineRefusal {
    // A processor that is not below the number of processors.
    NoSuchProcessor(u32),
    // A size above 1,000,000.
    SizeTooLarge,
    // A number of processors that this kind of machine cannot have.
    ProcessorCount(u32),
    // A figure above its limit, by its place among the seven, from 1.
    FigureTooLarge(u32),
}

// Number and place go by the cases of this kind, and places differ in width: a trait over all kinds would say only the names.
impl MachineRefusal {
    // The layer that refuses, which is the same for every case.
    pub fn layer(&self) -> u32
        ensures { result ≡ layer_of self.now }
    {
        3
    }

    // The number under which the refusal is listed.
    pub fn number(&self) -> u32
        ensures { result ≡ number_of self.now }
    {
        match self {
            MachineRefusal::NoSuchProcessor(_) => 25,
            MachineRefusal::SizeTooLarge => 26,
            MachineRefusal::ProcessorCount(_) => 27,
            MachineRefusal::FigureTooLarge(_) => 28,
        }
    }

    // What the refusal names: a processor, a number of processors, the place of a figure, or nothing.
    pub fn place(&self) -> u32
        ensures { result ≡ place_of self.now }
    {
        match self {
            MachineRefusal::NoSuchProcessor(place)
            | MachineRefusal::ProcessorCount(place)
            | MachineRefusal::FigureTooLarge(place) => *place,
            MachineRefusal::SizeTooLarge => 0,
        }
    }
}

// The layer, the number and the place.
impl fmt::Display for MachineRefusal {
    ghost output = { λ why. Some (text_of why) };

    fn fmt<W: fmt::Write>(&self, f: &mut fmt::Formatter<W>) -> fmt::Result {
        write!(f, "{} {} {}", self.layer(), self.number(), self.place())
    }
}
