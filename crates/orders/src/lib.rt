//! Point orders: from positions to the indexes whose points they hand out.
#![tactic(auto)]

mod digitwise;
pub mod gray;
pub mod order;
pub mod plain;
pub mod shifted;
mod size;
