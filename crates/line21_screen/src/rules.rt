ghost use Rattle.std.specs.Prelude.{◌≡◌};
ghost use Rattle.line21_screen.specs.Controls.{acts_always};
ghost use Rattle.line21_screen.specs.Pens.{mid_row_style};

use line21_codes::{Colour, Control, Style};

// Whether a code acts in text mode too, and before the first mode.
pub(crate) fn acts_always(control: Control) -> bool
    ensures { result ≡ acts_always control }
{
    matches!(
        control,
        Control::Rcl
            | Control::Rdc
            | Control::Ru(_)
            | Control::Tr
            | Control::Rtd
            | Control::Edm
            | Control::Enm
            | Control::Eoc
    )
}

// The style after a mid-row code: a colour ends italics, and italics keep the colour.
pub(crate) fn mid_row_style(colour: Option<Colour>, underline: bool, style: Style) -> Style
    ensures { result ≡ mid_row_style colour underline style }
{
    match colour {
        Some(colour) => Style {
            colour,
            italic: false,
            underline,
        },
        None => Style {
            colour: style.colour,
            italic: true,
            underline,
        },
    }
}
