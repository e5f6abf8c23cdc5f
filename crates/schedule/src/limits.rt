// How large a problem may be: blocks as the chain figures have them, and processors.
pub use chains::limits::{MAX_BLOCKS, NUMBERS};

pub const MAX_PROCESSORS: usize = 32;
