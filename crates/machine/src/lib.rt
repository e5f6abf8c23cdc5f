// Machines: what a rack of processors costs, two kinds of rack, and layers over any machine.
#![tactic(auto)]

mod examples;
mod figures;
mod greatest;
mod kind;
mod machine;
mod one_of_two;
mod rack;
mod refusal;
mod same;
mod waiting;
mod withholding;

pub use crate::examples::cube_example;
pub use crate::figures::Figures;
pub use crate::greatest::greatest_delay;
pub use crate::kind::{BusKind, CubeKind, Kind};
pub use crate::machine::{LARGEST_SIZE, Machine, check_question, check_size};
pub use crate::rack::{Bus, Cube, Rack};
pub use crate::refusal::MachineRefusal;
pub use crate::same::answer_alike;
pub use crate::waiting::Waiting;
pub use crate::withholding::Withholding;
pub use either::Either;
