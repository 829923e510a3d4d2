//! Tests of the board, and of the policy, the decision and courses over it.
#![tactic(auto)]

#[cfg(test)]
mod board_tests;
#[cfg(test)]
mod course_core_tests;
#[cfg(test)]
mod policies;
#[cfg(test)]
mod policy_table_tests;
#[cfg(test)]
mod request_core_tests;
