/// A packet of a list without its text: the frame that it is sent from, its class and type, and the number of its text's
/// bytes.
#[derive(Clone, Copy)]
pub struct Head {
    pub from: u32,
    pub class: u8,
    pub kind: u8,
    pub size: u8,
}
