// A text that is held in place.
use arrayvec::ArrayString;

pub mod lines;
pub mod puts;

// The room is what the longest listing takes: 256 rows of at most 84 bytes, and a last line of at most 81.
#[derive(Drop)]
pub struct Page {
    text: ArrayString<21600>,
}
