//! What depends on answers, as a tree that gives a result or asks questions and goes on by the answers: definitions in
//! `specs/`, and their laws, which have nothing to run.
#![tactic(auto)]

mod laws;

pub use laws::{
    Questions, Results, answers_join, entries_tell, looked_ends, looked_in_order, looked_right,
    looked_stays, run_goes_on, run_stays, then_answered, then_looked, then_runs, translated_same,
};
