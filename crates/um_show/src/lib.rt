//! The `show` command: converts LAPDm frames between octets and text.
#![tactic(auto)]

mod command;

pub use command::Show;
