//! Tests of what else a board and its replies stand on: numbers, ranges and covers, paths of lookups, entries and what draws,
//! seeks and notes them; links, a gate over sockets, and readers beside a writer.
#![tactic(auto)]

#[cfg(test)]
mod cidr_cover_tests;
#[cfg(test)]
mod door_face_tests;
#[cfg(test)]
mod entry_log_tests;
#[cfg(test)]
mod fit_search_tests;
#[cfg(test)]
mod link_face_tests;
#[cfg(test)]
mod load_gen_tests;
#[cfg(test)]
mod num_range_tests;
#[cfg(test)]
mod op_feed_tests;
#[cfg(test)]
mod op_window_tests;
#[cfg(test)]
mod quarantine_tests;
#[cfg(test)]
mod rdap_query_tests;
#[cfg(test)]
mod reader_edge_tests;
#[cfg(test)]
mod reg_entry_tests;
#[cfg(test)]
mod slot_pool_tests;
