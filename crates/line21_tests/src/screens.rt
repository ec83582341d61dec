use line21_codes::{DataChannel, Pair};
use line21_screen::{Field, Mode};
use std::alloc::AllocError;

// Each pair, and the mode of data channel 1 after it.
const MODES: [(u8, u8, Mode); 8] = [
    (0x80, 0x80, Mode::Off),
    (0x94, 0x20, Mode::PopOn),
    (0x94, 0x29, Mode::PaintOn),
    (0x94, 0xA7, Mode::RollUp(4)),
    (0x94, 0x25, Mode::RollUp(2)),
    (0x94, 0x2A, Mode::RollUp(2)),
    (0x94, 0x2F, Mode::PopOn),
    (0x1C, 0x26, Mode::PopOn),
];

#[test]
fn modes_are_told(rt: HostRuntime) -> Result<(), AllocError> {
    let mut field = Field::new(rt.alloc(), false)?;
    for (a, b, mode) in MODES {
        field.apply(Pair { a, b });
        assert!(rt; field.mode(false) == mode);
    }
    assert!(rt; field.mode(true) == Mode::RollUp(3));
    field.reset();
    assert!(rt; field.mode(false) == Mode::Off);
    Ok(())
}

#[test]
fn memory_tells_its_rows(rt: HostRuntime) -> Result<(), AllocError> {
    let mut field = Field::new(rt.alloc(), false)?;
    let rows = field.displayed(DataChannel::One).rows();
    assert!(rt; rows.start == rows.end);
    // HI at row 15, column 0.
    for (a, b) in [(0x94, 0x29), (0x94, 0x70), (0xC8, 0x49)] {
        field.apply(Pair { a, b });
    }
    assert!(rt; field.displayed(DataChannel::One).rows() == (15..16));
    Ok(())
}
