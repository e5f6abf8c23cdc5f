// A list in fixed room, which lies in the value itself, takes no heap, and can be copied.
#![tactic(auto)]

pub mod list;
#[cfg(test)]
mod tests;
