//! Writes the stamps of the items.
ghost use Rattle.std.specs.Prelude.{◌≡◌, ◌+◌, ◌%◌};
ghost use Rattle.made_spec.specs.Made.{second_text};

/// The stamp of this second of 2024-05-01, in UTC.
pub(crate) fn second_text(second: u32) -> [u8; 20]
    ensures { result ≡ second_text second }
{
    let hour = second / 3600;
    let minute = second / 60 % 60;
    let left = second % 60;
    [
        b'2',
        b'0',
        b'2',
        b'4',
        b'-',
        b'0',
        b'5',
        b'-',
        b'0',
        b'1',
        b'T',
        digit(hour / 10),
        digit(hour),
        b':',
        digit(minute / 10),
        digit(minute),
        b':',
        digit(left / 10),
        digit(left),
        b'Z',
    ]
}

// The last decimal digit of `n`, in ASCII.
fn digit(n: u32) -> u8
    ensures { result ≡ 48 + n % 10 }
{
    b'0' + (n % 10) as u8
}
