//! What a policy means: what its run asks of the packet and of the environment, as a tree of questions.
#![tactic(auto)]

pub mod policy_laws;
pub mod question_laws;
