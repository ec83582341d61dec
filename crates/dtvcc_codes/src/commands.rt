use crate::pens::{PenAttr, PenColors};
use crate::windows::{Definition, WinAttr};

/// What one spelling among a service's bytes says (CTA-708-E, the coding layer): a character, or a command.
#[derive(Clone, Copy, PartialEq, Eq)]
pub enum Command {
    /// A character; `None` is the transparent space.
    Put(Option<char>),
    /// End of text (ETX).
    Etx,
    /// Backspace (BS).
    Bs,
    /// Form feed (FF).
    Ff,
    /// Carriage return (CR).
    Cr,
    /// Horizontal carriage return (HCR).
    Hcr,
    /// SetCurrentWindow (CW0 to CW7), of a window 0 to 7.
    Cw(u8),
    /// ClearWindows (CLW); bit n names window n.
    Clw(u8),
    /// DisplayWindows (DSW); bit n names window n.
    Dsw(u8),
    /// HideWindows (HDW); bit n names window n.
    Hdw(u8),
    /// ToggleWindows (TGW); bit n names window n.
    Tgw(u8),
    /// DeleteWindows (DLW); bit n names window n.
    Dlw(u8),
    /// Delay (DLY), in tenths of a second.
    Dly(u8),
    /// DelayCancel (DLC).
    Dlc,
    /// Reset (RST).
    Rst,
    /// SetPenAttributes (SPA).
    Spa(PenAttr),
    /// SetPenColor (SPC).
    Spc(PenColors),
    /// SetPenLocation (SPL): row 0 to 15, column 0 to 63.
    Spl { row: u8, col: u8 },
    /// SetWindowAttributes (SWA).
    Swa(WinAttr),
    /// DefineWindow (DF0 to DF7).
    Df(Definition),
    /// A code that a receiver passes over, with its parameters: the codes of C0, C1, C2 and C3 that have no meaning here.
    Skipped,
}
