// The joiner's definitions in specs/, and statement 3 proved over them in proofs/. No code but the constants that code shares with them.
#![tactic(auto)]

use cutting::MOST_BLOCKS;

// The base of a key: `key_base`.
pub const KEY_BASE: u64 = MOST_BLOCKS as u64;

// The ticks of a block: `ticks_per_block`.
pub const TICKS_PER_BLOCK: usize = 6;

// .. of which its crossing has this one: `crossing_tick`.
pub const CROSSING_TICK: usize = 4;

// .. and its point step this one: `point_tick`.
pub const POINT_TICK: usize = 5;

// The numbers of a block in the block table: `numbers_per_block`.
pub const NUMBERS_PER_BLOCK: usize = 5;
