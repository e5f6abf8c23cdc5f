// A rack of processors of some kind, which is a machine.
ghost use Rattle.std.specs.Prelude.{◌≡◌, true, Some, None, MatchResult};
ghost use Rattle.machine.specs.Figures.{fitting};
ghost use Rattle.machine.specs.Kinds.{making_refusal, rack_model};
ghost use Rattle.machine.specs.Lawfulness.{rack_lawful};

use crate::figures::Figures;
use crate::kind::{BusKind, CubeKind, Kind};
use crate::machine::{Machine, check_question};
use crate::refusal::MachineRefusal;
use std::alloc::AllocError;
use std::marker::PhantomData;

#[derive_where(Debug, PartialEq, Eq)]
pub struct Rack<K: Kind> {
    processors: u32,
    figures: Figures,
    kind: PhantomData<K>,
    ghost allowed: { K.allows processors ≡ true },
    ghost fit: { fitting figures ≡ true },
}

// A bus: the same delay between any two different processors.
pub type Bus = Rack<BusKind>;

// A cube: a delay for each bit in which two processor numbers differ.
pub type Cube = Rack<CubeKind>;

// By hand: `derive_where(Clone, Copy)`, tried, is refused, since `Clone` is derived for no struct with a ghost field.
impl<K: Kind> Clone for Rack<K> {
    ghost is_clone = { λ x y. y ≡ x };

    ghost is_infallible = { λ _. Unit {0} };

    fn clone(&self) -> Result<Self, AllocError> {
        Ok(*self)
    }
}

impl<K: Kind> Copy for Rack<K> {}

impl<K: Kind> Rack<K> {
    // A rack of so many processors with these figures.
    pub fn new(processors: u32, figures: Figures) -> Result<Self, MachineRefusal>
        ensures { MatchResult result (λ r. (making_refusal (K.allows processors) processors figures ≡ None) × (r.processors ≡ processors) × (r.figures ≡ figures)) (λ why. making_refusal (K.allows processors) processors figures ≡ Some why) }
    {
        if !K::allows(processors) {
            return Err(MachineRefusal::ProcessorCount(processors));
        }
        if let Some(place) = figures.first_too_large() {
            return Err(MachineRefusal::FigureTooLarge(place));
        }
        Ok(Rack {
            processors,
            figures,
            kind: PhantomData,
        })
    }
}

impl<K: Kind> Machine for Rack<K> {
    ghost meaning = { λ r. rack_model K.steps r.processors r.figures };

    ghost lawful = { λ r. rack_lawful K.allows K.steps K.laws r.processors r.figures r.allowed r.fit };

    fn processors(&self) -> u32 {
        self.processors
    }

    fn delay(&self, from: u32, to: u32, size: u32) -> Result<u64, MachineRefusal> {
        check_question(self.processors, from, to, size)?;
        Ok(self.figures.step_delay(size) * u64::from(K::steps(from, to)))
    }

    fn startup(&self) -> u64 {
        u64::from(self.figures.startup)
    }

    fn reading(&self, size: u32) -> Result<u64, MachineRefusal> {
        self.figures.reading_time(size)
    }

    fn writing(&self, size: u32) -> Result<u64, MachineRefusal> {
        self.figures.writing_time(size)
    }
}
