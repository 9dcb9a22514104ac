//! Runs in which requests for memory are refused: each test prints the results of its calls and the state afterwards, and tries once more
//! if memory ran out. By themselves they show the answers of ample memory; `tests/memory.py` runs each with the first request refused, then
//! the second, and so on, and compares what is printed.
#![tactic(auto)]

#[cfg(test)]
mod end_runs;
#[cfg(test)]
mod export_runs;
#[cfg(test)]
mod feed_runs;
#[cfg(test)]
mod free_runs;
#[cfg(test)]
mod payload_runs;
#[cfg(test)]
mod server_runs;
#[cfg(test)]
mod set_runs;
#[cfg(test)]
mod slurm_runs;
#[cfg(test)]
mod telling;
