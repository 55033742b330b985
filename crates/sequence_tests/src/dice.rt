// The next number of a fixed row that looks like chance.
pub(crate) fn next(seed: u32) -> u32 {
    seed.wrapping_mul(1_664_525).wrapping_add(1_013_904_223)
}

// One of 0 to 15 from the number's bits above a place below 28.
pub(crate) fn pick(seed: u32, place: u8) -> u8 {
    let shift = place % 28;
    ((seed >> shift) % 16) as u8
}
