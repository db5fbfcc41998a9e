//! Tests alone: sessions over devices in memory, and four clients on one base.
#![tactic(auto)]

#[cfg(test)]
mod base;
#[cfg(test)]
mod change_tests;
#[cfg(test)]
mod file_tests;
#[cfg(test)]
mod ready;
#[cfg(test)]
mod seat_tests;
#[cfg(test)]
mod view_tests;
