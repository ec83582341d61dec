//! Tests of what carries captions, where only a library's call can show it: triplets, distribution packets, ancillary packets, time codes, and
//! SCC and MCC files. Worked examples of the definitions of words files are laws, functions without a body.
#![tactic(auto)]

#[cfg(test)]
mod ancillary_packets;
#[cfg(test)]
mod distribution_packets;
#[cfg(test)]
mod packets_at_times;
#[cfg(test)]
mod pairs_at_times;
#[cfg(test)]
mod payloads;
mod service_bytes;
#[cfg(test)]
mod times;
#[cfg(test)]
mod triplets;
mod words;
