/// What one block sends to another.
#[derive(Clone, Copy, Debug, Default, PartialEq, Eq)]
pub struct Message {
    pub from: u32,
    pub to: u32,
    pub size: u32,
}
