// Tests of the machines, and that another crate can use what their contracts say and have a machine of its own.
#![tactic(auto)]

pub mod distant;
#[cfg(test)]
mod figures;
#[cfg(test)]
mod kinds;
#[cfg(test)]
mod layers;
#[cfg(test)]
mod refusals;
pub mod uses;
#[cfg(test)]
mod wholes;
