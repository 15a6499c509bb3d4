//! The numbers that bound a machine, each once.

/// Activities, numbered from 0.
pub const MOST_ACTIVITIES: usize = 64;
/// The issuer of the kernel's packets, after the activities.
pub const KERNEL: u8 = 64;
/// Tiles, numbered from 0: the kernel's, the memory's, and at least one that runs activities.
pub const LEAST_TILES: u8 = 3;

pub const MOST_TILES: u8 = 16;
/// Commands of an activity that fly at once.
pub const WINDOW: usize = 1;
/// Endpoints of an activity, numbered from 0.
pub const ENDPOINTS: usize = 16;
/// Of all activities.
pub const ALL_ENDPOINTS: usize = 1_024;
/// Bytes of memory.
pub const MOST_MEMORY: u32 = 1_048_576;
/// Grants that are ever made, numbered from 1.
pub const MOST_GRANTS: usize = 4_096;
/// Send grants under one receive grant that aren't done.
pub const MOST_CHILDREN: u32 = 64;
/// Slots of a receive endpoint, and credits of a send endpoint.
pub const MOST_SLOTS: u8 = 32;

pub const MOST_CREDITS: u8 = 32;
/// Bytes of a message.
pub const MOST_MESSAGE: u16 = 512;
/// Bytes of a read or a write.
pub const MOST_BYTES: u16 = 4_096;
/// Bytes of a payload that is written in a script.
pub const MOST_PAYLOAD: usize = 8_192;
/// Bytes of a block of the files.
pub const BLOCK_BYTES: u32 = 256;
/// Do moves of a stay.
pub const MOST_QUANTUM: u16 = 64;
/// What all programs weigh together, and how often one may be asked for a move.
pub const MOST_WEIGHT: u64 = 16_384;

pub const MOST_FUEL: u16 = 16_384;
/// Bytes that a writer writes, in chunks over a ring.
pub const MOST_WRITER_BYTES: usize = 65_536;

pub const MOST_CHUNK: u16 = 4_096;

pub const MOST_RING: u16 = 32;
/// Bytes of a script.
pub const MOST_SCRIPT_BYTES: u32 = 1_048_576;
/// Entries of a journal.
pub const MOST_ENTRIES: usize = 2_097_152;
/// The reply endpoint of a message that wants no reply.
pub const NO_REPLY: u8 = 255;
