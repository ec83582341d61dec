ghost use Rattle.std.specs.Prelude.{◌<◌};

/// The class and the type of the segment that is open.
#[derive(Clone, Copy)]
pub struct OpenSegment {
    /// The class.
    pub class: u8,
    /// The type.
    pub kind: u8,
    pub ghost class_to: { class < 8 },
}
