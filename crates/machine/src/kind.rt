// The kinds of rack: how many processors each may have, and in how many steps a message goes from one to another.
ghost use Rattle.std.specs.Prelude.{◌≡◌, ℕ, Bool};
ghost use Rattle.machine.specs.Kinds.{KindLaws, bus_allows, bus_steps, cube_allows, cube_steps};
ghost use Rattle.machine.specs.Lawfulness.{bus_laws, cube_laws};

pub trait Kind {
    // Which numbers of processors are allowed.
    ghost allows: { ℕ → Bool };

    // The steps from one processor to another.
    ghost steps: { ℕ → ℕ → ℕ };

    // Whether a rack may have so many processors.
    fn allows(processors: u32) -> bool
        ensures { result ≡ allows processors };

    // In how many steps a message goes from one processor to another.
    fn steps(from: u32, to: u32) -> u32
        ensures { result ≡ steps from to };

    // The laws that each kind keeps.
    ghost laws: { KindLaws allows steps };
}

// A bus: one step between any two different processors.
#[derive(Clone, Copy, Debug, PartialEq, Eq)]
pub struct BusKind;

impl Kind for BusKind {
    ghost allows = { bus_allows };

    ghost steps = { bus_steps };

    ghost laws = { bus_laws };

    fn allows(processors: u32) -> bool {
        matches!(processors, 1..=32)
    }

    fn steps(from: u32, to: u32) -> u32 {
        u32::from(from != to)
    }
}

// A cube: a step for each bit in which two processor numbers differ.
#[derive(Clone, Copy, Debug, PartialEq, Eq)]
pub struct CubeKind;

impl Kind for CubeKind {
    ghost allows = { cube_allows };

    ghost steps = { cube_steps };

    ghost laws = { cube_laws };

    fn allows(processors: u32) -> bool {
        matches!(processors, 1 | 2 | 4 | 8 | 16 | 32)
    }

    fn steps(from: u32, to: u32) -> u32 {
        (from ^ to).count_ones()
    }
}
