// The rows of a schedule.
ghost use Rattle.std.specs.Prelude.{◌≡◌, ◌≤◌, length};
ghost use Rattle.schedule.specs.Schedules.{rows_in};

use crate::rows::Row;
use crate::schedule::Schedule;

impl Schedule {
    // The rows, in the order in which they were placed.
    pub fn rows(&self) -> &[Row]
        ensures value { result.now ≡ rows_in self.now }
        ensures few { length result.now ≤ 256 }
    {
        self.rows.as_slice()
    }
}
