//! Tests of the lock by threads of their own, of sources and sinks, of disks, journals and the two parts (crashes, calls
//! that fail, and real files), of whole runs on disks that fail, of crashes at every call of a disk, of workers that meet
//! at the network, of look-ups beside them, of each index beside the scan whose place it takes, and of what a claim would
//! activate. Nothing stands on them: a crate with tests is proved twice.
#![tactic(auto)]

#[cfg(test)]
mod caches;
#[cfg(test)]
mod claims;
#[cfg(test)]
mod devices;
#[cfg(test)]
mod disk;
#[cfg(test)]
mod hosts;
#[cfg(test)]
mod journal;
#[cfg(test)]
mod lock;
#[cfg(test)]
mod runs;
#[cfg(test)]
mod scope;
#[cfg(test)]
mod store;
#[cfg(test)]
mod streams;
#[cfg(test)]
mod twin;
#[cfg(test)]
mod usage;
#[cfg(test)]
mod watch;
