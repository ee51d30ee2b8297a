//! The plan of a board, when it is valid, and the one region that an access belongs to.
#![tactic(auto)]

pub mod laws;
mod limits;
mod name;
mod near;
mod part;
mod plan;
mod region;
mod regions;
mod wire;

pub use limits::{
    LEAST_CLINT, LEAST_PLIC, MOST_CONTEXTS, MOST_FREQUENCY, MOST_MEMORIES, MOST_MEMORY,
    MOST_SOURCES, REGION_UNIT, is_speed,
};
pub use near::MemoryPlace;
pub use plan::{BoardPlan, Named, NamedWhat, PlicSize};
pub use region::{Region, RegionKind, Target};
pub use regions::{Regions, target_of};
pub use wire::{Wire, WireFrom, WirePin, is_context, may_end};
