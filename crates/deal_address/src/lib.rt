//! Bitcoin addresses (BIP 173, BIP 350): the address of a witness output's script, and the script that an address is
//! of. Deal files are read by it, and texts of deals shown.
#![tactic(auto)]

mod checksum;
mod groups;
mod human;
mod letters;
mod outputs;
mod reading;
mod writing;

pub use human::is_hrp;
pub use outputs::is_witness_output;
pub use reading::read_address;
pub use writing::address;
