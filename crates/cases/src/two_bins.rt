// The two-bin table: m 2, T 3, R 4 and sizes 1, 2, 3.
pub const TWO_BINS: [u8; 69] = [
    2, 3, 4, 3, 0, 5, // m, T, R, K, N
    1, 2, 3, // the sizes
    0, 0, 0, 0, 0, // the position of row 0: two loads, three counts
    1, 0, 1, 0, 0, // row 1
    1, 1, 2, 0, 0, // row 2
    2, 0, 2, 0, 0, // row 3
    2, 2, 2, 1, 0, // row 4
    0, 1, 0, 0, 0, 0, 0, // the answer of row 0: the class offered, three counts for each packing bin
    0, 1, 0, 0, 1, 0, 0, // row 1
    2, 2, 0, 0, 0, 0, 1, // row 2
    1, 1, 1, 0, 1, 0, 0, // row 3
    1, 1, 1, 0, 1, 1, 0, // row 4
];

// The same without row 4.
pub const FOUR_ROWS: [u8; 57] = [
    2, 3, 4, 3, 0, 4, // m, T, R, K, N
    1, 2, 3, // the sizes
    0, 0, 0, 0, 0, // the positions
    1, 0, 1, 0, 0, //
    1, 1, 2, 0, 0, //
    2, 0, 2, 0, 0, //
    0, 1, 0, 0, 0, 0, 0, // the answers
    0, 1, 0, 0, 1, 0, 0, //
    2, 2, 0, 0, 0, 0, 1, //
    1, 1, 1, 0, 1, 0, 0, //
];
