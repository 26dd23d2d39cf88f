//! Keys that are checked on several threads: that two workers run at once, which indexes each takes, and worked
//! orders with every number of workers.
pub mod meetings;
pub mod shares;
pub mod verdicts;
