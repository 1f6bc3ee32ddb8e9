// The archive for a virtual machine in C: `include/board.h` declares what stands here. Each export calls the function of its name in the crate `board`, and
// promises the same in the same words.
#![tactic(auto)]

mod changes;
mod layout;
mod questions;
mod run;
