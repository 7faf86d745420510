// Writing the numbers of a line as text.
ghost use Rattle.lines.specs.Kinds.{widths};
ghost use Rattle.lines.specs.Writing.{data_text, fields_text, written};
ghost use Rattle.std.specs.Fmt.{WritesOnOk};
ghost use Rattle.std.specs.Prelude.{◌≡◌, length};

use crate::hex::{put_byte, put_bytes, put_number};
use crate::kind::Kind;
use std::fmt;

// Writes one field of each width.
fn put_fields<W: fmt::Write>(
    f: &mut fmt::Formatter<W>,
    widths: &[u8],
    values: &[u32],
) -> fmt::Result
    requires { length values.now ≡ length widths.now }
    ensures { WritesOnOk W.write_str_gives f.old result (fields_text widths.now values.now) f.new }
{
    for (width, value) in widths.iter().zip(values) {
        f.write_char(' ')?;
        put_number(f, *width, *value)?;
    }
    Ok(())
}

// Writes the data of a kind that has any.
fn put_data<W: fmt::Write>(f: &mut fmt::Formatter<W>, kind: Kind, numbers: &[u8]) -> fmt::Result
    ensures { WritesOnOk W.write_str_gives f.old result (data_text kind numbers.now) f.new }
{
    if !kind.has_data() {
        return Ok(());
    }
    f.write_char(' ')?;
    put_bytes(f, numbers)
}

// Writes a line: its kind, its fields, its data, and the byte that closes it.
pub(crate) fn put_line<W: fmt::Write>(
    f: &mut fmt::Formatter<W>,
    kind: Kind,
    values: &[u32],
    numbers: &[u8],
) -> fmt::Result
    requires { length values.now ≡ length (widths kind) }
    ensures { WritesOnOk W.write_str_gives f.old result (written (record { kind = kind; fields = values.now; numbers = numbers.now })) f.new }
{
    put_byte(f, kind.number())?;
    put_fields(f, kind.widths(), values)?;
    put_data(f, kind, numbers)?;
    f.write_char('\n')
}
