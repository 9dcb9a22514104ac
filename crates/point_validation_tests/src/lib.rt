//! Examples of what an authority issues, which are the tests of the public items of `point_validation`. They use certificates and objects of
//! `openssl`, and each public call once on its happy path.
#![tactic(auto)]

#[cfg(test)]
mod children;
#[cfg(test)]
mod issuers;
#[cfg(test)]
mod vectors;
