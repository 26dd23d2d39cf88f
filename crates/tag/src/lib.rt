//! Names, keys, values and tags: what calls speak of.
//!
//! Each type holds only what the limits allow: a `Key` that exists is a key, a `Tag` is in range.
//! A key of at most 14 bytes, and a `KeyText`, have their bytes in themselves. Copies of a longer key,
//! or of a value, share one text. Of the other types only those that hold a value or a key take memory.
#![tactic(auto)]

mod actions;
mod key_text;
pub mod laws;
mod memory;
mod names;
mod numbers;
mod short_text;
mod tags;

pub use actions::{Action, Returned};
pub use key_text::KeyText;
pub use memory::Memory;
pub use names::{Key, NameError, Value, is_key};
pub use numbers::{ClientId, OpId, ReplicaId};
pub use tags::Tag;
