//! What a words file says to the 63 services of DTVCC (CTA-708-E, sections 5 and 6), over channel packets and service blocks.
//! It says which files carry a caption channel, where a header of a block is refused, and what each service is given frame by
//! frame. Definitions, and the laws that join them with the layers below.
#![tactic(auto)]

pub mod laws;
