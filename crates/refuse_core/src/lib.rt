//! What the contracts of policies, zones and the machine refuse. Each function has clauses of a function of `grant_policy`,
//! `policy_tools`, `zone_core`, `zone_tools` or `office_core` and calls it; each edit in must-fail makes the call or the answer wrong
//! in one idea, and the prover refuses it.
#![tactic(auto)]

pub mod permission;
pub mod policies;
pub mod steps;
pub mod tables;
mod twins;
pub mod zones;
