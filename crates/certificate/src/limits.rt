// The limits of a certificate: its bins, the capacity T, its classes and its rows.
pub const LEAST_BINS: usize = 2;

pub const MOST_BINS: usize = 8;

pub const MOST_CAPACITY: usize = 127;

pub const MOST_CLASSES: usize = 32;

pub const MOST_ROWS: usize = 65535;
