// The areas, the lines of the table, and the block of an allocation. The overheads 16, 8 and 4 stand here once, each beside
// what it belongs to. A size and its overhead are added in 64 bits, so that the sum is the whole number; a trait for `taken` would be longer than its three sums.
ghost use Rattle.std.specs.Prelude.{◌≡◌};
ghost use Rattle.names.specs.Overhead.{block_taken, store_taken, stack_taken};

use crate::ids::{StackId, StoreId, ThreadId};

// A run of addresses.
#[repr(C)]
#[derive(Clone, Copy, PartialEq, Eq)]
pub struct Area {
    pub start: u32,
    pub length: u32,
}

// A backing store: its first address is its identifier, and its total counts the overhead.
#[repr(C)]
#[derive(Clone, Copy, PartialEq, Eq)]
pub struct Store {
    pub id: StoreId,
    pub total: u32,
    pub used: u32,
    pub parent: StoreId,
}

// A thread with its allocation context.
#[repr(C)]
#[derive(Clone, Copy, PartialEq, Eq)]
pub struct Thread {
    pub id: ThreadId,
    pub context: StoreId,
}

// A thread stack: its first address is its identifier, and its total counts the overhead.
#[repr(C)]
#[derive(Clone, Copy, PartialEq, Eq)]
pub struct Stack {
    pub id: StackId,
    pub total: u32,
}

// The block of an allocation: its first address, and the bytes asked for.
#[derive(Clone, Copy, PartialEq, Eq)]
pub struct Block {
    pub start: u32,
    pub size: u32,
}

impl Area {
    pub fn new(start: u32, length: u32) -> Self
        ensures { result ≡ record { start = start; length = length } }
    {
        Self { start, length }
    }
}

impl Store {
    pub const OVERHEAD: u32 = 16;

    // A store in which nothing is used.
    pub fn new(id: StoreId, total: u32, parent: StoreId) -> Self
        ensures { result ≡ record { id = id; total = total; used = 0; parent = parent } }
    {
        Self {
            id,
            total,
            used: 0,
            parent,
        }
    }

    // The bytes that a store for n bytes takes.
    pub fn taken(n: u32) -> u64
        ensures { result ≡ store_taken n }
    {
        u64::from(n) + u64::from(Self::OVERHEAD)
    }
}

impl Thread {
    pub fn new(id: ThreadId, context: StoreId) -> Self
        ensures { result ≡ record { id = id; context = context } }
    {
        Self { id, context }
    }
}

impl Stack {
    pub const OVERHEAD: u32 = 8;

    pub fn new(id: StackId, total: u32) -> Self
        ensures { result ≡ record { id = id; total = total } }
    {
        Self { id, total }
    }

    // The bytes that a stack for n bytes takes.
    pub fn taken(n: u32) -> u64
        ensures { result ≡ stack_taken n }
    {
        u64::from(n) + u64::from(Self::OVERHEAD)
    }
}

impl Block {
    pub const OVERHEAD: u32 = 4;

    pub fn new(start: u32, size: u32) -> Self
        ensures { result ≡ record { start = start; size = size } }
    {
        Self { start, size }
    }

    // The bytes that an allocation of n bytes takes.
    pub fn taken(n: u32) -> u64
        ensures { result ≡ block_taken n }
    {
        u64::from(n) + u64::from(Self::OVERHEAD)
    }
}
