//! Examples of PDUs, caches and routers, which are tests of the public items of `rtr_pdu` and `rtr_ends`: values of the standards, streams, and
//! examples. What happens at a cache or a router is a script of the program `rtr_scripts`. They are apart, because a crate with tests is proved
//! twice.
#![tactic(auto)]

#[cfg(test)]
mod counted;
#[cfg(test)]
mod ends;
#[cfg(test)]
mod rtr_ends_example;
#[cfg(test)]
mod rtr_pdu_example;
#[cfg(test)]
mod streams;
#[cfg(test)]
mod timings;
#[cfg(test)]
mod units;
#[cfg(test)]
mod units_v0;
#[cfg(test)]
mod values;
