// The first row that a test takes.
ghost use Rattle.std.specs.Prelude.{◌≡◌};
ghost use Rattle.checking.specs.Checking.{Test, Agrees, first_row};

use schedule::rows::Row;

// The number, from 1, of the first row that a test takes; the test may look at the rows above. The clause says so for
// every `t` that says what the calls of the test answer.
// `position` hands its test one row and not the rows above it, so the place is counted here.
pub(crate) fn first_row<F: Fn(&[Row], &Row) -> bool>(rows: &[Row], takes: F) -> Option<u64>
    requires { F.IsAlwaysCallable takes }
    ensures { (t : Test) → Agrees (λ above row b. F.post takes above row b) t → result ≡ first_row t rows.now }
{
    for (i, row) in rows.iter().enumerate() {
        if takes(&rows[..i], row) {
            return Some(i as u64 + 1);
        }
    }
    None
}
