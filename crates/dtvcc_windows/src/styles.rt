ghost use Rattle.std.specs.Prelude.{◌≡◌, ◌≤◌};
ghost use Rattle.dtvcc_windows.specs.Styles.{black_fill, black_window, pen_style, upright_pen, white_on_black, window_style};

use dtvcc_codes::{Fill, PenAttr, PenColors, Rgb, WinAttr};

const BLACK: Rgb = Rgb { r: 0, g: 0, b: 0 };

const WHITE_FILL: Fill = Fill {
    opacity: 0,
    r: 2,
    g: 2,
    b: 2,
};

/// The attributes of a predefined window style, 1 to 7 (CTA-708-E, predefined window styles). What the standard calls not
/// applicable there is 0.
pub fn window_style(n: u8) -> WinAttr
    requires from { 1 ≤ n }
    requires to { n ≤ 7 }
    ensures { result ≡ window_style n }
{
    match n {
        1 => black_window(0, 0, 3, false, 0),
        2 => black_window(0, 0, 3, false, 3),
        3 => black_window(2, 0, 3, false, 0),
        4 => black_window(0, 0, 3, true, 0),
        5 => black_window(0, 0, 3, true, 3),
        6 => black_window(2, 0, 3, true, 0),
        7 => black_window(0, 2, 1, false, 0),
        _ => unreachable!(),
    }
}

/// The pen attributes and colours of a predefined pen style, 1 to 7 (CTA-708-E, predefined pen styles).
pub fn pen_style(n: u8) -> (PenAttr, PenColors)
    requires from { 1 ≤ n }
    requires to { n ≤ 7 }
    ensures { result ≡ pen_style n }
{
    match n {
        1 => (upright_pen(0, 0), white_on_black(0)),
        2 => (upright_pen(1, 0), white_on_black(0)),
        3 => (upright_pen(2, 0), white_on_black(0)),
        4 => (upright_pen(3, 0), white_on_black(0)),
        5 => (upright_pen(4, 0), white_on_black(0)),
        6 => (upright_pen(3, 3), white_on_black(3)),
        7 => (upright_pen(4, 3), white_on_black(3)),
        _ => unreachable!(),
    }
}

// A black window without a border that appears at once.
fn black_window(justify: u8, print: u8, scroll: u8, wrap: bool, opacity: u8) -> WinAttr
    ensures { result ≡ black_window justify print scroll wrap opacity }
{
    WinAttr {
        justify,
        print,
        scroll,
        wrap,
        effect: 0,
        effect_dir: 0,
        effect_speed: 0,
        fill: black_fill(opacity),
        border_kind: 0,
        border: BLACK,
    }
}

// Upright characters of standard size, in a font and with an edge.
fn upright_pen(font: u8, edge: u8) -> PenAttr
    ensures { result ≡ upright_pen font edge }
{
    PenAttr {
        size: 1,
        font,
        tag: 0,
        offset: 1,
        italic: false,
        underline: false,
        edge,
    }
}

// White characters, on black of an opacity.
fn white_on_black(opacity: u8) -> PenColors
    ensures { result ≡ white_on_black opacity }
{
    PenColors {
        fg: WHITE_FILL,
        bg: black_fill(opacity),
        edge: BLACK,
    }
}

// Black of an opacity.
fn black_fill(opacity: u8) -> Fill
    ensures { result ≡ black_fill opacity }
{
    Fill {
        opacity,
        r: 0,
        g: 0,
        b: 0,
    }
}
