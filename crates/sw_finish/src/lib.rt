//! Plans, carried out on the tables of a host: it takes no memory, and can't fail.
#![tactic(auto)]

mod acts;
mod finishing;
mod hosting;

pub use finishing::finish;
