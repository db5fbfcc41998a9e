//! Tests alone: devices in memory and over streams, records, searches, the position index, codes of openings, and views of trees, beside what was
//! worked out by hand.
#![tactic(auto)]

#[cfg(test)]
mod asking_tests;
#[cfg(test)]
mod code_tests;
#[cfg(test)]
mod device_tests;
#[cfg(test)]
mod fault_tests;
#[cfg(test)]
mod hit_tests;
#[cfg(test)]
mod later;
#[cfg(test)]
mod later_tests;
#[cfg(test)]
mod memory_tests;
#[cfg(test)]
mod one_game;
#[cfg(test)]
mod slot_tests;
#[cfg(test)]
mod standing;
#[cfg(test)]
mod stream_tests;
#[cfg(test)]
mod table_tests;
#[cfg(test)]
mod watch_tests;
