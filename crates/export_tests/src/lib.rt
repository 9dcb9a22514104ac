//! Examples of exports and of local exceptions (RFC 8416), which are the tests of the libraries `prefix_texts`, `json_texts`, `exports`,
//! `slurm` and `sources`. They have each call on its happy path, and what sources serve. The results of files are rows of `tests/file_rows.py`,
//! which the tests `outcomes` print. They are apart, because a crate with tests is proved twice.
#![tactic(auto)]

#[cfg(test)]
mod anchors;
#[cfg(test)]
mod ccr_files;
#[cfg(test)]
mod export_cases;
#[cfg(test)]
mod export_files;
#[cfg(test)]
mod exports_example;
#[cfg(test)]
mod json_texts_example;
#[cfg(test)]
mod list_parts;
#[cfg(test)]
mod payload_lists_example;
#[cfg(test)]
mod prefix_texts_example;
#[cfg(test)]
mod slurm_cases;
#[cfg(test)]
mod slurm_example;
#[cfg(test)]
mod slurm_files;
#[cfg(test)]
mod source_files;
#[cfg(test)]
mod sources_example;
