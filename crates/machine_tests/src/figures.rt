// Figures for the tests.
use machine::Figures;

// A delay of 1 + size, and all other figures different.
pub const SMALL: Figures = Figures {
    delay_base: 1,
    delay_unit: 1,
    startup: 3,
    reading_base: 4,
    reading_unit: 5,
    writing_base: 6,
    writing_unit: 7,
};

// Each figure at its limit.
pub const LARGEST: Figures = Figures {
    delay_base: 10_000,
    delay_unit: 99,
    startup: 100_000,
    reading_base: 10_000,
    reading_unit: 99,
    writing_base: 10_000,
    writing_unit: 99,
};
