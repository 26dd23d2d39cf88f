//! The members of a row's line, read in one pass, without a tree of JSON values.
//!
//! A line is read that is one object with a member, whose members are null, plain numbers or texts
//! without escapes, in any order and with any white space. It has the members that `serde_json`
//! reads: of a name that comes twice the last. Any other line is left to the JSON reader. Nothing
//! is allocated, and texts stay where they lie.
//!
//! What a number and a plain text are to JSON is offered too, for other readers of such lines.
#![tactic(auto)]

mod keys;
mod member;
mod name;
mod row_members;
mod scan;
mod values;

pub use member::Member;
pub use name::Name;
pub use row_members::{MemberRoom, NAMES, RowMembers};
pub use scan::{PlainRun, is_plain_byte, plain_run};
pub use values::first_number;
