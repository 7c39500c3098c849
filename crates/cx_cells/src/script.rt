use cx_base::{List, Region};

/// What a called function gives: its result, if it has one, and the memory as the call leaves it.
#[derive(Drop)]
pub struct Answer {
    pub result: Option<i128>,
    pub memory: List<Region>,
}

/// Where an allocator puts a new region, and the bytes that stand there.
#[derive(Drop)]
pub struct Block {
    pub base: u64,
    pub bytes: List<u8>,
}

/// The bytes that others put in the place of those of the region at place `region`.
#[derive(Drop)]
pub struct Rewrite {
    pub region: u32,
    pub bytes: List<u8>,
}

/// What others do to the memory at once: they rewrite regions of shared types, and add regions of such
/// types at its end.
#[derive(Drop)]
pub struct Change {
    pub rewrites: List<Rewrite>,
    pub added: List<Region>,
}

/// What a run takes from outside its text, each list from its first item on: an answer at each call
/// of a function; at each call of an allocator a block, or None for null; and a change before each
/// access to memory, each call and each return.
#[derive(Drop)]
pub struct Script {
    pub answers: List<Answer>,
    pub blocks: List<Option<Block>>,
    pub changes: List<Change>,
}
