//! What a machine is formatted from.

/// The programs that a machine begins with.
#[derive(Drop)]
pub struct Image {
    pub programs: Vec<Program>,
}

/// A program: where its threads begin, how many there are, which channels it has (bits 0 to 3 the outputs, bit 4 the
/// input, bit 5 the root group), and its memory.
#[derive(Drop)]
pub struct Program {
    pub entry: u32,
    pub threads: u8,
    pub channels: u8,
    pub regions: Vec<RegionSpec>,
}

/// A region of a program's memory: where it begins, its pages, its rights (1 read, 2 write, 4 execute), and its first
/// bytes; the others are zero.
#[derive(Drop)]
pub struct RegionSpec {
    pub base: u32,
    pub pages: u8,
    pub rights: u8,
    pub content: Vec<u8>,
}
