// What a port wants done, and how that went.

use mscp_packet::MoveKind;
use mscp_queue::FaultStatus;

/// What the port wants done. Addresses are those of the host's bus.
#[derive(Clone, Copy)]
pub enum Action {
    /// Nothing, until a register is touched, a volume comes or goes, or the clock ticks.
    Rest,
    /// Nothing, but the machine is to go on a little before the port does. On real machines this takes some hundred
    /// instructions.
    Pause,
    /// So many bytes of host memory from an address on are to be read.
    Read {
        address: u32,
        count: u32,
    },
    /// So many bytes, which the port tells by `bytes`, are to be written to host memory from an address on.
    Write {
        address: u32,
        count: u32,
    },
    /// The host is to be interrupted by this vector.
    Interrupt(u16),
    /// A block of a unit is to be moved, and so many bytes of host memory from an address on. READ writes the first
    /// bytes of the block there; WRITE writes the bytes, with zeros behind them, to the block; COMPARE HOST DATA
    /// compares them with its first. ACCESS reads the block, and ERASE writes zeros to it: these touch no memory.
    Transfer {
        kind: MoveKind,
        unit: u16,
        block: u32,
        address: u32,
        count: u32,
    },
}

/// What a port is asked for.
#[derive(Clone, Copy)]
pub enum Ask {
    /// All that it wants.
    All,
    /// Messages alone, while a block takes its time: no block is begun, and one that is in hand is wanted anew once all
    /// is asked for.
    Messages,
}

/// How an action went.
#[derive(Clone, Copy)]
pub enum Outcome {
    /// It was done.
    Done,
    /// Not all of the host's memory is there.
    Missing,
    /// The host's memory has a parity error.
    Parity,
    /// The bus maps no memory there.
    Unmapped,
    /// The bytes that were compared differ.
    Different,
    /// The block couldn't be read or written, and its command ends with this status.
    Failed(FaultStatus),
}

/// What was told isn't what the port wants done now. Nothing is changed.
#[derive(Clone, Copy)]
pub struct Unasked;
