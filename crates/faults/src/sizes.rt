// The limits of a list.

// The longest list.
pub const MAX_CLOCKS: usize = 4096;

// The most faults.
pub const MAX_FAULTS: usize = 200;

// The good board, and the faults.
pub const MAX_ENTRIES: usize = MAX_FAULTS + 1;

// The highest class.
pub const MAX_CLASS: u8 = 99;
