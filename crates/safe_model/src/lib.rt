//! What a board says of all its runs, as definitions: which writes can meet a poll (`Raisers`),
//! what each operation comes after by a table of clocks (`Clocks`), what a read then returns
//! (`Safe`), which polls nothing meets (`Vain`), which table is the largest, by tests over the
//! operations (`largest`), and what it says of each operation (`said`). All is of the board alone;
//! `law_safe` has what follows for its runs.
#![tactic(auto)]
