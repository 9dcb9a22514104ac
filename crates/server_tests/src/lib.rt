//! Examples of a server of many routers, of routers of other caches, of worlds and chains of them, and of what leads from payloads to the state
//! of a route. They are the tests of the public items of `rtr_server`, `upstreams`, `rtr_world` and `feed`. They use streams over memory that
//! would block, are interrupted, fail or accept a part at one call, for each call. Clients have turns in every order, and caches are cut, silent
//! or wrong.
#![tactic(auto)]

#[cfg(test)]
mod answers;
#[cfg(test)]
mod clients;
#[cfg(test)]
mod command_parts_example;
#[cfg(test)]
mod faults;
#[cfg(test)]
mod feed_example;
#[cfg(test)]
mod lines;
#[cfg(test)]
mod notices;
#[cfg(test)]
mod orders;
#[cfg(test)]
mod parted;
#[cfg(test)]
mod play;
#[cfg(test)]
mod polls;
#[cfg(test)]
mod queries;
#[cfg(test)]
mod relays_example;
#[cfg(test)]
mod routes;
#[cfg(test)]
mod rtr_commands_example;
#[cfg(test)]
mod rtr_server_example;
#[cfg(test)]
mod rtr_world_example;
#[cfg(test)]
mod stalls;
#[cfg(test)]
mod streams;
#[cfg(test)]
mod times;
#[cfg(test)]
mod upstreams_example;
#[cfg(test)]
mod world_scripts_example;
#[cfg(test)]
mod worlds;
