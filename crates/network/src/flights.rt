//! A message under way.
use crate::Message;

/// A message with the count of its copies that are under way.
#[derive(Debug, Drop, PartialEq, Eq)]
pub struct Flight {
    pub message: Message,
    pub copies: u32,
}
