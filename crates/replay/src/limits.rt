// What a case may hold at most: numbers in a table, bytes of room, bytes in a string, and lengths.
pub const NUMBERS: usize = 20003;

pub const ROOM: usize = 4096;

pub const BYTES: usize = 65536;

pub const LENGTHS: usize = 32;
