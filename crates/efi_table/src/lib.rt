// The format of the table of unaccepted memory: its header, its image and its layout.
#![tactic(auto)]

pub mod header;
pub mod layout;
