//! The events that need no compiled contract: advertise, post, reveal, sign and mine. Each is refused or gives its
//! effect, which `bm_world_apply` applies.
#![tactic(auto)]

mod advertising;
mod mining;
mod posting;
mod revealing;
mod signing;

pub use advertising::pending_advertise;
pub use mining::pending_mine;
pub use posting::pending_post;
pub use revealing::pending_reveal;
pub use signing::pending_sign;
