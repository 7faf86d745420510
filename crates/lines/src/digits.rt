// Hexadecimal digits, and where a text stops keeping to a test.
ghost use Rattle.std.specs.Prelude.{◌≡◌, ◌<◌, ◌==◌, not, position};
ghost use Rattle.lines.specs.Digits.{digit_value, is_digit, is_sound, newline};
ghost use Rattle.std.specs.List.{prefix_len};

// Whether a byte is a capital hexadecimal digit.
pub(crate) fn is_digit(b: u8) -> bool
    ensures { result ≡ is_digit b }
{
    b.is_ascii_digit() || matches!(b, b'A'..=b'F')
}

// Whether a line may hold a byte: digits and spaces.
pub(crate) fn is_sound(b: u8) -> bool
    ensures { result ≡ is_sound b }
{
    is_digit(b) || b == b' '
}

// The value of a digit, 0 for any other byte.
pub(crate) fn digit_value(b: u8) -> u8
    ensures value { result ≡ digit_value b }
    ensures bound { result < 16 }
{
    match b {
        b'0'..=b'9' => b - b'0',
        b'A'..=b'F' => b - b'A' + 10,
        _ => 0,
    }
}

// How many digits a text begins with.
pub(crate) fn digits_at_front(text: &[u8]) -> usize
    ensures { result ≡ prefix_len is_digit text.now }
{
    text.iter().take_while(|b| is_digit(**b)).count()
}

// Where a text has the byte that closes its first line.
pub(crate) fn closing_place(text: &[u8]) -> Option<usize>
    ensures { result ≡ position (λ b. b == newline) text.now }
{
    text.iter().position(|b| *b == b'\n')
}

// Where a line has its first byte that it may not hold.
pub(crate) fn unsound_place(line: &[u8]) -> Option<usize>
    ensures { result ≡ position (λ b. not (is_sound b)) line.now }
{
    line.iter().position(|b| !is_sound(*b))
}
