//! Tables of tests of the command line that only files and sinks in memory, and calls of what stands below it, can show.
//!
//! There is nothing to call. Through the top call of gp_cli, `crews` has rows of several workers, some of which are held, and
//! `devices` those of reads and writes that fail. `words` has the rows of gp_words, `outside` those of gp_io, `texts` those of
//! gp_gen, and `demos` the summary of a small graph. What gp2 prints of programs, hosts, journals and scripts is tried on the
//! program itself, by `scripts/check-rows`.
#![tactic(auto)]

#[cfg(test)]
mod tests;
