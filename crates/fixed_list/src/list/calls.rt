// The calls on a list in fixed room.
ghost use Rattle.std.specs.Prelude.{◌≡◌, ◌+◌, ◌<◌, ◌≤◌, [], ◌∷◌, ◌++◌, length};
ghost use Rattle.fixed_list.specs.Items.{items_of};

use crate::list::FixedList;
use std::fmt;

impl<T: Copy + Default, const ROOM: usize> FixedList<T, ROOM> {
    // A list without elements.
    pub fn new() -> Self
        ensures { items_of result ≡ [] }
    {
        FixedList {
            cells: Default::default(),
            count: 0,
        }
    }

    // Appends an element.
    pub fn push(&mut self, element: T)
        requires { length (items_of self.old) < ROOM }
        ensures items { items_of self.new ≡ items_of self.old ++ element ∷ [] }
        ensures len { length (items_of self.new) ≡ length (items_of self.old) + 1 }
    {
        self.cells[self.count] = element;
        self.count += 1;
    }

    // The elements.
    pub fn as_slice(&self) -> &[T]
        ensures value { result.now ≡ items_of self.now }
        ensures few { length result.now ≤ ROOM }
    {
        &self.cells[..self.count]
    }

    // A list of these elements.
    pub fn from_slice(elements: &[T]) -> Self
        requires { length elements.now ≤ ROOM }
        ensures { items_of result ≡ elements.now }
    {
        let mut list = FixedList::new();
        for element in elements {
            list.push(*element);
        }
        list
    }
}

// Two lists are equal where their elements are.
impl<T: Copy + Default + PartialEq, const ROOM: usize> PartialEq for FixedList<T, ROOM> {
    ghost use Rattle.std.specs.Cmp.{on_per};
    ghost use Rattle.std.specs.Cmp.Lexicographic.{pointwise, lists_per};

    ghost eq = { λ v w. pointwise T.eq (items_of v) (items_of w) };

    ghost laws = { on_per (λ v. items_of v) (lists_per T.laws) };

    fn eq(&self, other: &Self) -> bool {
        self.as_slice() == other.as_slice()
    }
}

impl<T: Copy + Default + Eq, const ROOM: usize> Eq for FixedList<T, ROOM> {
    ghost use Rattle.std.specs.Cmp.{on_equiv};
    ghost use Rattle.std.specs.Cmp.Lexicographic.{lists_equiv};

    ghost laws = { on_equiv (λ v. items_of v) (lists_equiv T.Eq.laws) };
}

// A list is shown by its elements.
impl<T: Copy + Default + fmt::Debug, const ROOM: usize> fmt::Debug for FixedList<T, ROOM> {
    fn fmt<W: fmt::Write>(&self, f: &mut fmt::Formatter<W>) -> fmt::Result {
        f.debug_list().entries(self.as_slice()).finish()
    }
}
