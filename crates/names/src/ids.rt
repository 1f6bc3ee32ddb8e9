// Store, stack and thread identifiers are three kinds of name: one is never accepted where another is meant.

// A store's identifier is its first address.
#[repr(C)]
#[derive(Clone, Copy, PartialEq, Eq, PartialOrd, Ord)]
pub struct StoreId(pub u32);

// A stack's identifier is its first address.
#[repr(C)]
#[derive(Clone, Copy, PartialEq, Eq, PartialOrd, Ord)]
pub struct StackId(pub u32);

// A thread's identifier is any 32-bit number.
#[repr(C)]
#[derive(Clone, Copy, PartialEq, Eq, PartialOrd, Ord)]
pub struct ThreadId(pub u32);
