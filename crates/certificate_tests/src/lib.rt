//! Examples of certificates, revocation lists, resources, trust anchors and their constraints, which are the tests of the public items of
//! `resource_certificates`, `issuing`, `ee_keys`, `resources`, `trust_anchors` and `constraints`. They use certificates and CRLs of `openssl`, and each public call once on its happy path.
#![tactic(auto)]

#[cfg(test)]
mod anchors;
#[cfg(test)]
mod certificates;
#[cfg(test)]
mod constraint_files;
#[cfg(test)]
mod constraints_example;
#[cfg(test)]
mod crls;
#[cfg(test)]
mod ee_keys_example;
#[cfg(test)]
mod issued;
#[cfg(test)]
mod locators;
#[cfg(test)]
mod resource_certificates_example;
#[cfg(test)]
mod resource_values;
#[cfg(test)]
mod resources_example;
#[cfg(test)]
mod trust_anchors_example;
#[cfg(test)]
mod validities;
#[cfg(test)]
mod vectors;
