// A list in fixed room.
ghost use Rattle.std.specs.Prelude.{◌≤◌};

use std::alloc::AllocError;

pub mod calls;

// At most ROOM elements, in the first places of an array; what stands behind them says nothing.
pub struct FixedList<T, const ROOM: usize> {
    cells: [T; ROOM],
    count: usize,
    ghost fits: { count ≤ ROOM },
}

// `Clone` by hand: it is derived for no generic struct with a ghost field.
impl<T: Copy, const ROOM: usize> Clone for FixedList<T, ROOM> {
    ghost use Rattle.std.specs.Prelude.{◌≡◌};

    ghost is_clone = { λ x y. y ≡ x };

    ghost is_infallible = { λ _. Unit {0} };

    fn clone(&self) -> Result<Self, AllocError> {
        Ok(*self)
    }
}

impl<T: Copy, const ROOM: usize> Copy for FixedList<T, ROOM> {}
