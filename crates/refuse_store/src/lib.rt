//! What the contracts of stores refuse. Each function has clauses of a function of `store_sql`, `store_rows` or `office_store` and
//! calls it; each edit in must-fail makes the call or the answer wrong in one idea, and the prover refuses it.
#![tactic(auto)]

pub mod rows;
pub mod stores;
pub mod tables;
