//! Tests of runs that rows of `cc_vectors` can't tell. They are on what is seen frame by frame where frames are lost or receivers read printed pairs,
//! on the longest inputs, and on words that name a side file or can't be read. There are tests alone here.
#![tactic(auto)]

#[cfg(test)]
mod command_words;
#[cfg(test)]
mod given;
#[cfg(test)]
mod limits;
#[cfg(test)]
mod lost_frames;
#[cfg(test)]
mod screens;
