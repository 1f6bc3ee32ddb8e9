// The words of the manager: three kinds of identifier, the report, and the lines of the table with the three overheads.
// What a table is made of is laid out as C lays it out, `#[repr(C)]`, here and in the lists: `board` hands it to C.
#![tactic(auto)]

mod ids;
mod lines;
mod report;

pub use ids::{StackId, StoreId, ThreadId};
pub use lines::{Area, Block, Stack, Store, Thread};
pub use report::Report;
