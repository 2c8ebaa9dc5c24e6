// How much of an order file the programs read, and how much they lend to play it. Each makes its
// own buffers, since the library allocates nothing.

/// The most bytes of an order file that are read; what stands behind them is left.
pub const INPUT_BYTES: u64 = 65_536;

/// Slots for the orders of a file.
pub const ORDER_SLOTS: usize = 8_192;

/// Slots for the log of a run.
pub const LOG_SLOTS: usize = 2_048;

/// The bytes lent for the exported file.
pub const OUTPUT_BYTES: usize = 65_536;
