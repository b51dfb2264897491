// The archive for programs in other languages, which `include/trainer.h` declares: each function of the crates `capi_*`, exported with the same clauses:
// a crate that another one uses exports nothing to C.
#![tactic(auto)]

mod batch_exports;
mod bus_exports;
mod drill_exports;
mod handler_exports;
mod holders_exports;
mod jbus_exports;
mod machine_exports;
mod message_exports;
mod size_exports;
mod start_exports;
mod tape_exports;
