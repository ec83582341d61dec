use dtvcc_codes::Definition;
use dtvcc_windows::Window;
use std::alloc::AllocError;

#[test]
fn rows_are_those_that_can_have_a_cell(rt: HostRuntime) -> Result<(), AllocError> {
    let mut window = Window::new(rt.alloc())?;
    window.define(&Definition {
        id: 3,
        visible: true,
        row_lock: true,
        col_lock: true,
        priority: 2,
        relative: false,
        av: 60,
        ah: 50,
        anchor: 7,
        rows: 4,
        cols: 3,
        ws: 0,
        ps: 0,
    });
    for (row, col, ch) in [(1, 1, 'A'), (2, 0, 'B'), (2, 1, 'C')] {
        if window.live() {
            window.locate(row, col);
        }
        if window.live() {
            window.put(Some(ch));
        }
    }
    assert!(rt; window.live() && window.rows() == (1..3));
    Ok(())
}
