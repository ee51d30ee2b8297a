//! The hubs that connect devices of the boards, UARTs or CAN controllers: who hears whom, and how late.
#![tactic(auto)]

mod hub;
mod hubs;
mod ranks;

pub use hub::Hub;
pub use hubs::{HubFault, UartHubs};
