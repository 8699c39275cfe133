// Rooms: how many bytes a local buffer has, so that what it holds fits for every allowed set. Each is a product of the limits, said here once; specs/Rooms.antt has
// the same names and products, and the facts that an allowed set keeps within them.
use crate::{LEAST_L, MOST_L, MOST_O, MOST_ROW, MOST_V};

// The powers of S, or l rows of l·l bytes.
pub const POWERS_ROOM: usize = MOST_L * (MOST_L * MOST_L);

// T12, or F21 of one i: v·l times o·l bytes.
pub const PRIVATE_ROOM: usize = MOST_V * MOST_ROW;

// P22 of one i: o·l rows of o·l bytes.
pub const KEY_ROOM: usize = MOST_O * MOST_ROW;

// v matrices, an element to a byte; also l rows of v or o blocks.
pub const VINEGAR_ROOM: usize = MOST_V * (MOST_L * MOST_L);

// v matrices laid from place 0 or 1 on, and one block more.
pub const FLAT_ROOM: usize = VINEGAR_ROOM + MOST_L * MOST_L;

// n matrices, an element to a byte.
pub const LIST_ROOM: usize = VINEGAR_ROOM + MOST_ROW;

// The powers of S times v matrices, and times n: rows of l·l bytes.
pub const VINEGAR_POWERS_ROOM: usize = VINEGAR_ROOM * MOST_L;

pub const LIST_POWERS_ROOM: usize = LIST_ROOM * MOST_L;

// How many rows these two have.
pub const VINEGAR_ROWS: usize = MOST_V * MOST_L;

pub const LIST_ROWS: usize = VINEGAR_ROWS + MOST_ROW / LEAST_L;

// The left or the right sums of signing's system: o·l² times o·l bytes.
pub const SIDE_SUMS_ROOM: usize = MOST_ROW * (MOST_ROW / LEAST_L);

// The power sums of every matrix index: o·l² rows of l² bytes.
pub const POWER_SUMS_ROOM: usize = MOST_ROW * (MOST_L * MOST_L);
