//! Tests of what is published of a board, of the desk that many share, of conversations with it that go wrong, and of its serving.
#![tactic(auto)]

#[cfg(test)]
mod desk_book_tests;
#[cfg(test)]
mod hall_tests;
#[cfg(test)]
mod serve_run_tests;
#[cfg(test)]
mod snapshot_pub_tests;
