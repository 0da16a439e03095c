//! How a bridge decodes addresses, and who claims a request, by the windows that headers say:
//! PCI-to-PCI Bridge Architecture Specification 1.1, chapter 4 and section 3.1 (from memory). No
//! word of the program calls it: claims by the board's own numbers are the same, which is proved
//! here. And `lines`, a text as the lines that have tokens.
#![tactic(auto)]

mod claims;
mod configuration;
mod hop;
mod hops;
mod laws;
mod route;
mod text;
mod windows;

pub use claims::claim_on;
pub use configuration::convert_cfg;
pub use hop::Hop;
pub use hops::{next_hop, way_length};
pub use laws::decoding_is_claim;
pub use route::CfgRoute;
pub use text::{Line, TextFault, lines};
pub use windows::{claim_down, claim_up};
