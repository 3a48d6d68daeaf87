//! Tests of the machine that `sls_run` runs: by itself, through lists of events, and beside the slow form of the plain
//! machine of the whole kernel.
#![tactic(auto)]

#[cfg(test)]
mod events;
#[cfg(test)]
mod machines;
#[cfg(test)]
mod programs;
#[cfg(test)]
mod worlds;
