//! Tests of calls that no word of the program makes, of which act a log tells, and of the boards
//! that are made from a number, by values worked out by hand.
#![tactic(auto)]

#[cfg(test)]
mod log_told_tests;
#[cfg(test)]
mod message_tests;
#[cfg(test)]
mod plain_audit_tests;
#[cfg(test)]
mod plain_decode_tests;
#[cfg(test)]
mod plain_lines_tests;
#[cfg(test)]
mod plain_replay_tests;
#[cfg(test)]
mod traffic_generator_tests;
#[cfg(test)]
mod worked_boards;
