ghost use Rattle.std.specs.Prelude.{◌≡◌};
ghost use Rattle.line21_codes.specs.Writable.{IsWritable};
ghost use Rattle.line21_codes.specs.Writing.{pair_of_code};
ghost use Rattle.line21_author.specs.FirstChannel.{first_channel};
ghost use Rattle.line21_author.specs.Channels.{field_of_kind};

use cue_lists::Kind;
use line21_codes::{Code, Control, FieldNumber, Pair, write_code};

/// The code of a control code for data channel 1.
pub(crate) fn first_channel(control: Control) -> Code
    ensures { result ≡ first_channel control }
{
    Code::Control {
        second: false,
        control,
    }
}

/// The field that sends a cue's units; a window cue, which has none, counts as one of field 1.
pub(crate) fn field_of_kind(kind: Kind) -> FieldNumber
    ensures { result ≡ field_of_kind kind }
{
    match kind {
        Kind::Pop(channel) | Kind::Paint(channel) | Kind::Roll(channel, _) => channel.field(),
        Kind::Win(_) => FieldNumber::One,
    }
}

/// The pair with which a field writes a code.
pub(crate) fn write_in(in_field: FieldNumber, code: Code) -> Pair
    requires { IsWritable code }
    ensures { result ≡ pair_of_code in_field code }
{
    match in_field {
        FieldNumber::One => write_code(code, false),
        FieldNumber::Two => write_code(code, true),
    }
}
