//! Tests of the texts that are read and written, messages and the change stream among them.
#![tactic(auto)]

#[cfg(test)]
mod desk_lang_tests;
#[cfg(test)]
mod mirror_core_tests;
#[cfg(test)]
mod nrtm_stream_tests;
#[cfg(test)]
mod rpsl_text_tests;
#[cfg(test)]
mod wire_http_tests;
