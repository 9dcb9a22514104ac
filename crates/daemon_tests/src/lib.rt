//! Examples of a daemon and of its status pages, which are the tests of `session_names`, `event_log`, `log_output`, `sd_notify`, `tcp_table`,
//! `rtr_daemon`, `status_pages` and `status_server`. They are of its sessions and serials, their pace, its clock, the levels and the parts of
//! its log, and the hosts and the queries of its pages. `daemon_scripts` plays what happens at a daemon, at its log and at its pages.
//! `page_texts` prints the lines of the log, the command line and the texts of the pages. They are a crate of their own, as a crate with tests
//! is proved twice.
#![tactic(auto)]

#[cfg(test)]
mod connections;
#[cfg(test)]
mod event_log_example;
#[cfg(test)]
mod hosts;
#[cfg(test)]
mod levels;
#[cfg(test)]
mod lists;
#[cfg(test)]
mod log_output_example;
#[cfg(test)]
mod log_parts;
#[cfg(test)]
mod managers;
#[cfg(test)]
mod moments;
#[cfg(test)]
mod names;
#[cfg(test)]
mod payload_commands_example;
#[cfg(test)]
mod queries;
#[cfg(test)]
mod rpkirtr_cli_example;
#[cfg(test)]
mod rpkirtrd_cli_example;
#[cfg(test)]
mod rtr_daemon_example;
#[cfg(test)]
mod sd_notify_example;
#[cfg(test)]
mod session_names_example;
#[cfg(test)]
mod stamps;
#[cfg(test)]
mod starts;
#[cfg(test)]
mod status_pages_example;
#[cfg(test)]
mod status_server_example;
#[cfg(test)]
mod tables;
#[cfg(test)]
mod tcp_table_example;
#[cfg(test)]
mod validities;
