//! Of the windows of services it is decided whether they are seen alike: a window has cells in some bound, whatever came before. Definitions and
//! a law alone.
#![tactic(auto)]

pub mod laws;
