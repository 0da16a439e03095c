//! Lemmas on the definitions of a run that the laws rest on: lanes and their moves, operations and
//! who presents them, answers, and what every move keeps.
