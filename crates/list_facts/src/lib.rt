//! Lemmas on lists that every crate above cites: sums, the first that passes, and what is left
//! without it. What a law crate says is named on its page `proofs/Laws.antt`, and others take
//! lemmas of it from there alone; what is general stands here, or in `history_model::facts`.
#![tactic(auto)]
