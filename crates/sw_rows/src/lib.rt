//! The definitions, computed: recordings from their lines to the printed text, addresses, transcript lines, journal parts,
//! and situations that wrong definitions would allow. Nothing stands on this crate.
#![tactic(auto)]
