// The manager for a virtual machine in C: the crate `board_c` exports each function that stands here, and `include/board.h` declares them. A table goes in by
// value and comes back by value, in structs that C lays out alike. An exported function can return neither an enum nor a reference, so a report crosses as its
// number, and a run as its place in its area.
#![tactic(auto)]

mod answer;
mod changes;
mod layout;
mod questions;
mod run;

pub use answer::{BoardAnswer, BoardFound, BoardReply};
pub use changes::{
    board_add_thread, board_allocate, board_clear, board_destroy_stack, board_make_stack,
    board_make_store, board_remove_thread, board_resize, board_set_context, board_start,
    board_zeros,
};
pub use layout::board_numbered;
pub use questions::{
    board_broken_rule, board_context, board_find, board_free, board_root, board_total, board_used,
};
pub use run::{BoardRun, board_run};
