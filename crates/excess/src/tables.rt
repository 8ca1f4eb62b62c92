// For each half byte the signed sum of its brackets: +1 open, -1 close. 64 bits, where 32 would do: of two tables of one width the compiler
// scales the index by an instruction of its own (docs/PERFORMANCE.md).
pub(crate) const EXCESS: [i64; 16] = [-4, -2, -2, 0, -2, 0, 0, 2, -2, 0, 0, 2, 0, 2, 2, 4];

// For each half byte the lowest running sum of its brackets, lowest bit first, the empty start included.
pub(crate) const MIN_EXCESS: [i32; 16] = [-4, -2, -2, 0, -2, 0, -1, 0, -3, -1, -1, 0, -2, 0, -1, 0];
