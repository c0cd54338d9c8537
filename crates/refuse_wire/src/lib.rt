//! What the contracts of HTTP refuse. Each function has a contract of a function of `office_wire` and calls it; each edit in
//! must-fail makes the call or the answer wrong in one idea, and the prover refuses it.
#![tactic(auto)]

pub mod streams;
