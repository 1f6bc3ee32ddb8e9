// Calls 8, 9, 10 and 11, on the lists that they look at. The checks stand in document 01's order, each after what it asks for. The table
// asks soundness before; a number that does not fit 32 bits is met on an unsound table only, and such a call is refused as one.
#![tactic(auto)]

mod block;
mod child;
mod clearing;
mod line;
mod resizing;
mod room;

pub use block::allocate;
pub use child::make_store;
pub use clearing::clear;
pub use resizing::resize;
pub use room::Roomed;
