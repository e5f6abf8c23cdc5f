// How large a job may be. What is promised in specs/ has these numbers of its own, so a wrong one here is refused.

pub const MAX_TASKS: usize = 256;

pub const MAX_LINKS: usize = 1024;

pub const MAX_TIME: u32 = 1_000_000;

pub const MAX_SIZE: u32 = 1_000_000;
