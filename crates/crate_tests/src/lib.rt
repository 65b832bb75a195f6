//! Tests of `faults`, `minelib_reader`, `mine_graph`, `forest`, `norm_tree`, `proposals`, `tree_lock` and `crew` by their public calls, of
//! what no contract and no run of the program shows. They stand apart, so that none of those crates is proved twice for its tests' sake.
#![tactic(auto)]

#[cfg(test)]
mod board_calls;
#[cfg(test)]
mod board_tests;
#[cfg(test)]
mod board_thread_tests;
#[cfg(test)]
mod crew_tests;
#[cfg(test)]
mod draw_tests;
#[cfg(test)]
mod failures;
#[cfg(test)]
mod fault_tests;
#[cfg(test)]
mod forest_tests;
#[cfg(test)]
mod graph_tests;
#[cfg(test)]
mod look_tests;
#[cfg(test)]
mod looks;
#[cfg(test)]
mod mines;
#[cfg(test)]
mod norm_tree_tests;
#[cfg(test)]
mod outcomes;
#[cfg(test)]
mod parts_tests;
#[cfg(test)]
mod serve_tests;
#[cfg(test)]
mod stale_tests;
#[cfg(test)]
mod table_tests;
#[cfg(test)]
mod trial;
