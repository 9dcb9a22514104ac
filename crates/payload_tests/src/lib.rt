//! Examples of elements, prefixes, payloads, publication points, sets, changes, route states, logs of versions, signatures, signed objects,
//! kinds of files and canonical forms of sets. They are the tests of the public items of these libraries. They use values of the standards,
//! keys and objects of `openssl`, printed texts, and each public call once on its happy path. They are apart, because a crate with tests is
//! proved twice.
#![tactic(auto)]

#[cfg(test)]
mod ber;
#[cfg(test)]
mod canonical;
#[cfg(test)]
mod ccr_example;
#[cfg(test)]
mod ccrs;
#[cfg(test)]
mod der_lite_example;
#[cfg(test)]
mod elements;
#[cfg(test)]
mod file_kinds_example;
#[cfg(test)]
mod keys;
#[cfg(test)]
mod logs;
#[cfg(test)]
mod manifests;
#[cfg(test)]
mod moments;
#[cfg(test)]
mod object_vectors;
#[cfg(test)]
mod objects;
#[cfg(test)]
mod offers;
#[cfg(test)]
mod payloads_example;
#[cfg(test)]
mod points_example;
#[cfg(test)]
mod prefix_texts;
#[cfg(test)]
mod prefixes_example;
#[cfg(test)]
mod probes;
#[cfg(test)]
mod roas;
#[cfg(test)]
mod rsa_sha256_example;
#[cfg(test)]
mod sets;
#[cfg(test)]
mod signature_vectors;
#[cfg(test)]
mod signatures;
#[cfg(test)]
mod signed_objects_example;
#[cfg(test)]
mod states;
#[cfg(test)]
mod values;
#[cfg(test)]
mod vrps_example;
