ghost use Rattle.std.specs.Prelude.{◌≡◌, ◌<◌, option_map};
ghost use Rattle.dtvcc_windows.specs.Objects.{window_of};
ghost use Rattle.dtvcc_screen.specs.Changes.{changed_by};
ghost use Rattle.dtvcc_screen.specs.Commands.{edited_by, is_named};

use dtvcc_codes::Command;
use dtvcc_windows::Window;

/// What a byte of windows asks of each window that it names (CTA-708-E, CLW, DSW, HDW, TGW and DLW).
#[derive(Clone, Copy)]
pub(crate) enum Change {
    Clear,
    Show,
    Hide,
    Toggle,
    Delete,
}

/// Changes a window, where there is one.
pub(crate) fn change_window(window: &mut Window, change: Change)
    ensures { window_of window.new ≡ changed_by change (window_of window.old) }
{
    if !window.live() {
        return;
    }
    match change {
        Change::Clear => window.clear(),
        Change::Show => window.set_visible(true),
        Change::Hide => window.set_visible(false),
        Change::Toggle => {
            let visible = window.visible();
            window.set_visible(!visible);
        }
        Change::Delete => window.delete(),
    }
}

/// Does what a command of text says to a window, where there is one.
pub(crate) fn edit_window(window: &mut Window, command: &Command)
    ensures { window_of window.new ≡ option_map (edited_by command.now) (window_of window.old) }
{
    if !window.live() {
        return;
    }
    match command {
        Command::Put(ch) => window.put(*ch),
        Command::Bs => window.back(),
        Command::Ff => window.form_feed(),
        Command::Cr => window.carriage_return(),
        Command::Hcr => window.row_return(),
        Command::Spa(pen) => window.set_pen(*pen),
        Command::Spc(colors) => window.set_colors(*colors),
        Command::Spl { row, col } => window.locate(*row, *col),
        Command::Swa(attributes) => window.set_attributes(*attributes),
        Command::Etx
        | Command::Cw(_)
        | Command::Clw(_)
        | Command::Dsw(_)
        | Command::Hdw(_)
        | Command::Tgw(_)
        | Command::Dlw(_)
        | Command::Dly(_)
        | Command::Dlc
        | Command::Rst
        | Command::Df(_)
        | Command::Skipped => {}
    }
}

/// Whether a byte of windows names the window of this id.
pub(crate) fn is_named(bits: u8, id: usize) -> bool
    requires { id < 8 }
    ensures { result ≡ is_named bits id }
{
    bits >> id & 1 == 1
}
