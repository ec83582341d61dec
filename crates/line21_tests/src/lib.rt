//! Tests of what no whole run shows: of sources and sinks, of texts on their way to a sink, of findings, and of line 21: its codes, slots and screens.
#![tactic(auto)]

#[cfg(test)]
mod cadences;
#[cfg(test)]
mod finding_kinds;
#[cfg(test)]
mod gathered_text;
#[cfg(test)]
mod pair_codes;
#[cfg(test)]
mod screens;
#[cfg(test)]
mod streams;
