// A worked example of the rules, run.
ghost use Rattle.std.specs.Prelude.{◌≡◌, Ok};
ghost use Rattle.machine.specs.Examples.{unit_figures, CubeExample};

use crate::figures::Figures;
use crate::machine::Machine;
use crate::rack::Cube;
use crate::refusal::MachineRefusal;
use crate::waiting::Waiting;

// The example is true of the definitions.
fn cube_facts()
    ensures { CubeExample }
{}

// Delay base 1 and delay unit 1, and no other times.
fn unit_figures() -> Figures
    ensures { result ≡ unit_figures }
{
    Figures {
        delay_base: 1,
        delay_unit: 1,
        ..Figures::default()
    }
}

// The delay from 0 to 3 for size 2 on a cube of four processors, alone and with a wait of 5.
pub fn cube_example() -> Result<(u64, u64), MachineRefusal>
    ensures value { result ≡ Ok (6, 11) }
    ensures facts { CubeExample }
{
    cube_facts();
    let cube = Cube::new(4, unit_figures())?;
    let slow = Waiting {
        below: cube,
        wait: 5,
    };
    Ok((cube.delay(0, 3, 2)?, slow.delay(0, 3, 2)?))
}
