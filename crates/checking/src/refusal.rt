// Why rows are refused.
ghost use Rattle.std.specs.Prelude.{◌≡◌, Some};
ghost use Rattle.checking.specs.Refusals.{layer_of, number_of, place_of, text_of};

use std::fmt;

// A number in a case is the place that the refusal names: how many rows there are, or a row's number from 1.
#[derive(Clone, Copy, PartialEq, Eq, Debug)]
pub enum CheckRefusal {
    // There are no blocks to check against yet.
    WrongStage,
    // Not as many rows as blocks.
    RowCount(u64),
    // A block that is not there, or that a row above names.
    Block(u64),
    // A processor that is not there.
    Processor(u64),
    // A finish that is not the start and the block time.
    Finish(u64),
    // A row that overlaps a row above on its processor.
    Overlap(u64),
    // A row that starts before its data is there.
    Arrival(u64),
}

// Number and place go by the cases of this kind, and places differ in width: a trait over all kinds would say only the names.
impl CheckRefusal {
    // The layer that refuses, which is the same for every case.
    pub fn layer(&self) -> u32
        ensures { result ≡ layer_of self.now }
    {
        4
    }

    // The number under which the refusal is listed.
    pub fn number(&self) -> u32
        ensures { result ≡ number_of self.now }
    {
        match self {
            CheckRefusal::WrongStage => 1,
            CheckRefusal::RowCount(_) => 12,
            CheckRefusal::Block(_) => 13,
            CheckRefusal::Processor(_) => 14,
            CheckRefusal::Finish(_) => 15,
            CheckRefusal::Overlap(_) => 16,
            CheckRefusal::Arrival(_) => 17,
        }
    }

    // What the refusal names: nothing, how many rows there are, or a row.
    pub fn place(&self) -> u64
        ensures { result ≡ place_of self.now }
    {
        match self {
            CheckRefusal::WrongStage => 0,
            CheckRefusal::RowCount(place)
            | CheckRefusal::Block(place)
            | CheckRefusal::Processor(place)
            | CheckRefusal::Finish(place)
            | CheckRefusal::Overlap(place)
            | CheckRefusal::Arrival(place) => *place,
        }
    }
}

// The layer, the number and the place.
impl fmt::Display for CheckRefusal {
    ghost output = { λ why. Some (text_of why) };

    fn fmt<W: fmt::Write>(&self, f: &mut fmt::Formatter<W>) -> fmt::Result {
        write!(f, "{} {} {}", self.layer(), self.number(), self.place())
    }
}
