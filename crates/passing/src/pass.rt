// What a pass comes to.

// The most takers that a system has: its consumers and 31 couplings.
pub const MOST_TAKERS: usize = 32;

// A part of the amount, and what each taker gets of it.
#[derive(Clone, Copy)]
pub struct Column {
    pub part: u64,
    pub shares: [u64; MOST_TAKERS],
}

// Taker 0 is the system's consumers, then come its couplings in order of entry; places past the takers hold 0.
// Arrays of all places with a count beside them: no pass allocates, and a pass is copied, which no vector is.
#[derive(Clone, Copy)]
pub struct Pass {
    pub takers: usize,
    pub kw: Column,
    pub mwh: Column,
    pub received: [u64; MOST_TAKERS],
}
