//! Tests of the lowest crates, by values worked out by hand: of calls that no word of the program
//! makes, and that an item crosses between threads.
#![tactic(auto)]

#[cfg(test)]
mod io_ports_tests;
#[cfg(test)]
mod lane_ring_tests;
#[cfg(test)]
mod order_table_tests;
#[cfg(test)]
mod pci_command_tests;
