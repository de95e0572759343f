//! The machine of a cluster in which nothing can fail, and the history of its logs. It is a model:
//! definitions and lemmas, in `specs` and `proofs`, and nothing that runs.
#![tactic(auto)]
