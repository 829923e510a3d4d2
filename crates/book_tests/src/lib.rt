//! Tests of the books of a board: pages, pieces, holders and what they hold, and sub-assignments.
#![tactic(auto)]

#[cfg(test)]
mod holder_book_tests;
#[cfg(test)]
mod holding_book_tests;
#[cfg(test)]
mod page_dir_tests;
#[cfg(test)]
mod piece_book_tests;
#[cfg(test)]
mod sub_book_tests;
