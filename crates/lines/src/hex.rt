// Bytes that are shown as two capital hexadecimal digits each.
ghost use Rattle.lines.specs.Digits.{digit_of, hex, wide};
ghost use Rattle.std.specs.Fmt.{WritesOnOk};
ghost use Rattle.std.specs.Prelude.{◌<◌, [], ◌∷◌};

use std::fmt;

// Writes the digit of a value below 16.
fn put_digit<W: fmt::Write>(f: &mut fmt::Formatter<W>, value: u8) -> fmt::Result
    requires { value < 16 }
    ensures { WritesOnOk W.write_str_gives f.old result (digit_of value ∷ []) f.new }
{
    let digit = if value < 10 {
        b'0' + value
    } else {
        b'A' - 10 + value
    };
    f.write_char(char::from(digit))
}

// Writes one byte.
pub(crate) fn put_byte<W: fmt::Write>(f: &mut fmt::Formatter<W>, byte: u8) -> fmt::Result
    ensures { WritesOnOk W.write_str_gives f.old result (hex (byte ∷ [])) f.new }
{
    put_digit(f, byte / 16)?;
    put_digit(f, byte % 16)
}

// Writes bytes, one after the other.
pub(crate) fn put_bytes<W: fmt::Write>(f: &mut fmt::Formatter<W>, bytes: &[u8]) -> fmt::Result
    ensures { WritesOnOk W.write_str_gives f.old result (hex bytes.now) f.new }
{
    for byte in bytes {
        put_byte(f, *byte)?;
    }
    Ok(())
}

// Writes the lowest bytes of a number, as many as the width says, the highest first.
// Stays: a width in the format pads a number and does not cut it, so each caller would have to show that the number fits.
pub(crate) fn put_number<W: fmt::Write>(
    f: &mut fmt::Formatter<W>,
    width: u8,
    value: u32,
) -> fmt::Result
    ensures { WritesOnOk W.write_str_gives f.old result (hex (wide width value)) f.new }
{
    if width == 0 {
        return Ok(());
    }
    put_number(f, width - 1, value / 256)?;
    put_byte(f, (value % 256) as u8)
}
