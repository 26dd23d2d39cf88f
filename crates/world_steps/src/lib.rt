//! The world: clients, replicas, the network between them and the record, and the steps that move it.
//!
//! Each step touches one actor, the network and the record. A step that is refused leaves the world as
//! it was. A step takes a time that grows with the logarithm of the count of clients, of keys and of
//! flights under way, whatever was recorded.
#![tactic(auto)]

mod config;
mod effect;
pub mod laws;
mod members;
mod moves;
mod nodes;
mod refusal;
mod running;
mod step;
mod step_conditions;
mod system;
mod world;

pub use config::Config;
pub use effect::Effect;
pub use refusal::Refusal;
pub use running::run;
pub use step::Step;
pub use world::World;
