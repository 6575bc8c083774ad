//! The limits: the greatest numbers that are taken, each named here once. Definitions in `specs/` cite the
//! same constants.

/// The bytes of a command file, or of a list of traces.
pub const MAX_FILE_BYTES: usize = 1_048_576;

/// The round brackets that are open at once.
pub const MAX_OPEN_BRACKETS: usize = 64;

/// The symbols of a command.
pub const MAX_SYMBOLS: usize = 1024;

/// The processes of a command.
pub const MAX_PROCESSES: usize = 256;

/// The symbol places of a command.
pub const MAX_PLACES: u32 = 8192;

/// The components of a network that is compiled or read.
pub const MAX_COMPONENTS: usize = 65_536;

/// The bytes of a netlist, or of a schedule.
pub const MAX_NETLIST_BYTES: usize = 16_777_216;

/// The wires of a netlist that is read.
pub const MAX_NETLIST_WIRES: usize = 1_048_576;

/// The steps of a schedule that is drawn.
pub const MAX_DRIVEN_STEPS: usize = 262_144;

/// The number behind the word `big`.
pub const MAX_BIG: u32 = 255;

/// The bytes of a name.
pub const MAX_NAME_BYTES: usize = 32;
