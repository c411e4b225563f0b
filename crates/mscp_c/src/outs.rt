// What a call tells a program in C, as plain numbers.
//
// A refusal, and an answer of `MSCP_NOTHING`, leave the struct as it was: so nobody reads half an answer. A flag is a
// byte which is 1 where it holds, and else 0: C may hand in a struct that it has never written, and not every byte is
// a `bool`.

/// What became of a message: its reference number, and that of the command which it aborted, if it did.
#[repr(C)]
#[derive(Clone, Copy)]
pub struct SentOut {
    pub reference: u32,
    pub aborted: u32,
    pub has_aborted: u8,
}

/// The bytes of a message or an end, from the first on.
#[repr(C)]
#[derive(Drop)]
pub struct PacketOut {
    pub length: u32,
    pub bytes: [u8; 48],
}

/// An end, by its fields: those that its endcode doesn't have are 0.
#[repr(C)]
#[derive(Clone, Copy)]
pub struct EndOut {
    pub id: u64,
    pub reference: u32,
    pub other: u32,
    pub figure: u32,
    pub moved: u32,
    pub media: u32,
    pub size: u32,
    pub serial: u32,
    pub unit: u16,
    pub status: u16,
    pub track: u16,
    pub group: u16,
    pub cylinder: u16,
    pub timeout: u16,
    pub code: u8,
}

/// What the next step serves. The serial is that of a port's step, and 0 of a controller's.
#[repr(C)]
#[derive(Clone, Copy)]
pub struct UpcomingOut {
    pub serial: u64,
    pub reference: u32,
    pub bytes: u32,
    pub lbn: u32,
    pub done: u32,
    pub weight: u32,
    pub unit: u16,
    pub opcode: u8,
    pub touches: u8,
    pub connection: u8,
}

/// What a step did.
#[repr(C)]
#[derive(Clone, Copy)]
pub struct ReportOut {
    pub reference: u32,
    pub lbn: u32,
    pub seek: u32,
    pub unit: u16,
    pub status: u16,
    pub touched: u8,
    pub started: u8,
    pub ended: u8,
    pub connection: u8,
}

/// A waiting command's reference number, figure and connection.
#[repr(C)]
#[derive(Clone, Copy)]
pub struct FigureOut {
    pub reference: u32,
    pub figure: u32,
    pub connection: u8,
}

/// A command that keeps another one back: its reference number and connection, and in which ways it does.
#[repr(C)]
#[derive(Clone, Copy)]
pub struct HolderOut {
    pub reference: u32,
    pub connection: u8,
    pub fences: u8,
    pub overdrawn: u8,
}

/// What a received end says: of a command that ended its end, and of a poll the figure. The rest is 0.
#[repr(C)]
#[derive(Clone, Copy)]
pub struct NewsOut {
    pub figure: u32,
    pub reference: u32,
    pub moved: u32,
    pub unit: u16,
    pub status: u16,
    pub code: u8,
}

/// What a message from a port says: of a command that ended its end and what was asked, of a poll the figure, of an
/// attention message the code and the unit, and how many credits were told alone. The rest is 0.
#[repr(C)]
#[derive(Clone, Copy)]
pub struct HeardOut {
    pub figure: u32,
    pub reference: u32,
    pub moved: u32,
    pub asked: u32,
    pub unit: u16,
    pub status: u16,
    pub code: u8,
    pub opcode: u8,
    pub credits: u8,
}

/// What a port wants done. What its kind doesn't say is 0, and bytes behind those that it says are what they were.
#[repr(C)]
#[derive(Drop)]
pub struct ActionOut {
    pub serial: u64,
    pub address: u32,
    pub count: u32,
    pub block: u32,
    pub unit: u16,
    pub vector: u16,
    pub kind: u8,
    pub opcode: u8,
    pub bytes: [u8; 64],
}

/// How far a port has come: the number of its stage, the word of a stage that has one, and whether something is to go
/// out to a ring that was full.
#[repr(C)]
#[derive(Clone, Copy)]
pub struct StateOut {
    pub word: u16,
    pub stage: u8,
    pub is_held_back: u8,
}

/// A unit's volume. What isn't there has the rest of what was there last, or 0.
#[repr(C)]
#[derive(Clone, Copy)]
pub struct VolumeOut {
    pub size: u32,
    pub media: u32,
    pub is_there: u8,
    pub is_protected: u8,
    pub is_protected_by_host: u8,
    pub is_online: u8,
    pub is_removable: u8,
}
