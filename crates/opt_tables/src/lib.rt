//! Tables of tests of concurrent goals: systems of cells and traps, cores, passes of gates, workers and crews.
//!
//! There is nothing to call. `cells` has the rows of opt_cells, `cores` those of opt_core, over cells and traps and over the
//! rules of programs, `gates` those of opt_gate, `workers` and `crews` those of opt_worker.
#![tactic(auto)]

#[cfg(test)]
mod tests;
