// Whether two machines, of any two types, answer alike.
ghost use Rattle.std.specs.Prelude.{◌≡◌, Decides};
ghost use Rattle.machine.specs.Same.{Alike, SameLaws};

use crate::machine::Machine;

// To mean the same is to answer alike whatever is asked.
fn same_laws()
    ensures { SameLaws }
{}

// Whether both answer alike whatever is asked of these two processors and this size.
pub fn answer_alike<L: Machine, R: Machine>(
    left: &L,
    right: &R,
    from: u32,
    to: u32,
    size: u32,
) -> bool
    ensures alike { Decides result (Alike (L.Machine.meaning left.now) (R.Machine.meaning right.now) from to size) }
    ensures laws { SameLaws }
{
    same_laws();
    left.processors() == right.processors()
        && left.startup() == right.startup()
        && left.delay(from, to, size) == right.delay(from, to, size)
        && left.reading(size) == right.reading(size)
        && left.writing(size) == right.writing(size)
}
