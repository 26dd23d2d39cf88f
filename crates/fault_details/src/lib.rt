//! Why a file has its first fault: which member of a line is wrong, what stands there, and what is
//! allowed; or which call an earlier line began, noted or answered.
//!
//! The file is read again up to the line of the fault, which `find_line` finds. A fault of a line by itself is
//! explained from the bytes of the line; one that depends on earlier lines, from their rows. What is said stands
//! in lines of its own, each after two blanks. Values of the file stand in it as JSON texts, cut where they are
//! long, with no control character as it is. Of a file that can be read only once, as a pipe, `KeptReader` keeps
//! what is read.
#![tactic(auto)]

mod continuation;
mod demand;
mod demands;
mod earlier_rows;
mod file_faults;
mod found_line;
mod grouped;
mod json_beginning;
mod json_line;
mod kept_reader;
pub mod laws;
mod line_details;
mod member_text;
mod row_details;
mod script_faults;
mod script_given;
mod shown;
mod written;

pub use demands::LineKind;
pub use earlier_rows::EarlierRows;
pub use file_faults::{
    explain_history_fault, explain_history_line, explain_orders_fault, explain_orders_line,
};
pub use found_line::{FoundLine, find_line};
pub use kept_reader::{Kept, KeptReader};
pub use line_details::{FaultyLine, append_line_details};
pub use row_details::append_row_details;
pub use script_faults::{explain_script_fault, explain_script_line};
pub use script_given::{explain_script, seems_script};
