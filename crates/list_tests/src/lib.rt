//! Tests of cue lists, of the lanes that place what they send, of the frames of whole lists, and of the runs
//! that put them: those that no run of the program shows.
#![tactic(auto)]

#[cfg(test)]
mod budgets;
#[cfg(test)]
mod carried_frames;
#[cfg(test)]
mod field_lanes;
#[cfg(test)]
mod lists;
#[cfg(test)]
mod load_list;
#[cfg(test)]
mod one_cue;
#[cfg(test)]
mod overlaid_frames;
#[cfg(test)]
mod records;
#[cfg(test)]
mod sent_packets;
#[cfg(test)]
mod side_file;
#[cfg(test)]
mod sizes;
#[cfg(test)]
mod slot_tables;
#[cfg(test)]
mod statuses;
