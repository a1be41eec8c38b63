//! A server's workers in threads of their own, over the devices of ports.
#![tactic(auto)]

mod begin;
mod clocks;
mod close;
mod command;
mod devices;
mod pair;
mod sending;
mod served;
mod status;
mod tcp_worker;
mod text;
mod together;
mod transfer_worker;
mod udp_worker;
mod workers;

pub use command::serve_input;
pub use served::{Served, ServerConfig, serve};
pub use status::ServeEnd;
