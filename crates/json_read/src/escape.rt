//! Reads escapes: a backslash and a letter, or `\u` and four hexadecimal digits, twice if the first is a high surrogate (RFC 8259
//! section 7).
ghost use Rattle.std.specs.Prelude.{◌≡◌, ◌<◌, ◌≤◌, length, drop, IfOk, List, ℕ};
ghost use Rattle.std.specs.Char.{digit_value};
ghost use Rattle.json_machine.specs.Machine as machine;
ghost use Rattle.json_machine.specs.Machine.{text_step, text_verdict};
ghost use Rattle.json_read.specs.Strings.{escape_of, escape_on, escape_found, IsSmall, IsSmallStep};

// The state of the reader after a backslash. The numbers are the digits so far, and a high surrogate.
#[derive(Clone, Copy)]
pub(crate) enum Escape {
    Start,
    Hex,
    HexD,
    Unit2(u32),
    Unit1(u32),
    Unit0(u32),
    High1(u32),
    High0(u32),
    LowEscape(u32),
    LowU(u32),
    LowHex(u32),
    LowD(u32),
    Low1(u32, u32),
    Low0(u32, u32),
}

// One step within an escape: it continues, yields a character, or is wrong.
#[derive(Clone, Copy)]
pub(crate) enum EscapeStep {
    Goes(Escape),
    Gives(u32),
    Wrong,
}

fn hex(byte: u8) -> u32
    ensures { result ≡ digit_value byte }
{
    match byte {
        b'0'..=b'9' => byte as u32 - 48,
        b'A'..=b'Z' => byte as u32 - 55,
        b'a'..=b'z' => byte as u32 - 87,
        _ => 36,
    }
}

fn short(byte: u8) -> EscapeStep
    ensures step { (s : List ℕ) → text_step machine.escape s byte ≡ escape_on s result }
    ensures small { IsSmallStep result }
{
    match byte {
        b'b' => EscapeStep::Gives(8),
        b't' => EscapeStep::Gives(9),
        b'n' => EscapeStep::Gives(10),
        b'f' => EscapeStep::Gives(12),
        b'r' => EscapeStep::Gives(13),
        b'"' => EscapeStep::Gives(34),
        b'\\' => EscapeStep::Gives(92),
        b'/' => EscapeStep::Gives(47),
        b'u' => EscapeStep::Goes(Escape::Hex),
        _ => EscapeStep::Wrong,
    }
}

fn escape_step(state: Escape, byte: u8) -> EscapeStep
    requires { IsSmall state }
    ensures step { (s : List ℕ) → text_step (escape_of state) s byte ≡ escape_on s result }
    ensures small { IsSmallStep result }
{
    let digit = hex(byte);
    match state {
        Escape::Start => short(byte),
        Escape::Hex => {
            if digit == 13 {
                EscapeStep::Goes(Escape::HexD)
            } else if digit < 16 {
                EscapeStep::Goes(Escape::Unit2(digit))
            } else {
                EscapeStep::Wrong
            }
        }
        Escape::HexD => {
            if digit < 8 {
                EscapeStep::Goes(Escape::Unit1(208 + digit))
            } else if digit < 12 {
                EscapeStep::Goes(Escape::High1(208 + digit))
            } else {
                EscapeStep::Wrong
            }
        }
        Escape::Unit2(value) => {
            if digit < 16 {
                EscapeStep::Goes(Escape::Unit1(value * 16 + digit))
            } else {
                EscapeStep::Wrong
            }
        }
        Escape::Unit1(value) => {
            if digit < 16 {
                EscapeStep::Goes(Escape::Unit0(value * 16 + digit))
            } else {
                EscapeStep::Wrong
            }
        }
        Escape::Unit0(value) => {
            if digit < 16 {
                EscapeStep::Gives(value * 16 + digit)
            } else {
                EscapeStep::Wrong
            }
        }
        Escape::High1(value) => {
            if digit < 16 {
                EscapeStep::Goes(Escape::High0(value * 16 + digit))
            } else {
                EscapeStep::Wrong
            }
        }
        Escape::High0(value) => {
            if digit < 16 {
                EscapeStep::Goes(Escape::LowEscape(value * 16 + digit))
            } else {
                EscapeStep::Wrong
            }
        }
        Escape::LowEscape(high) => {
            if byte == b'\\' {
                EscapeStep::Goes(Escape::LowU(high))
            } else {
                EscapeStep::Wrong
            }
        }
        Escape::LowU(high) => {
            if byte == b'u' {
                EscapeStep::Goes(Escape::LowHex(high))
            } else {
                EscapeStep::Wrong
            }
        }
        Escape::LowHex(high) => {
            if digit == 13 {
                EscapeStep::Goes(Escape::LowD(high))
            } else {
                EscapeStep::Wrong
            }
        }
        Escape::LowD(high) => {
            if digit >= 12 && digit < 16 {
                EscapeStep::Goes(Escape::Low1(high, 208 + digit))
            } else {
                EscapeStep::Wrong
            }
        }
        Escape::Low1(high, value) => {
            if digit < 16 {
                EscapeStep::Goes(Escape::Low0(high, value * 16 + digit))
            } else {
                EscapeStep::Wrong
            }
        }
        Escape::Low0(high, value) => {
            if digit < 16 {
                EscapeStep::Gives(65_536 + (high - 55_296) * 1_024 + (value * 16 + digit - 56_320))
            } else {
                EscapeStep::Wrong
            }
        }
    }
}

/// The character of the escape after a backslash, and the offset after it; or the offset at which no string continues.
pub(crate) fn escape_end(bytes: &[u8], start: usize) -> Result<(u32, usize), usize>
    requires { start ≤ length bytes.now }
    ensures value { (s : List ℕ) → text_verdict machine.escape s start (drop start bytes.now) ≡ escape_found bytes.now s result }
    ensures bound { IfOk result (λ r. (r.0 < 1_114_112) × (start < r.1) × (r.1 ≤ length bytes.now)) }
{
    let mut state = Escape::Start;
    let mut at = start;
    'escape: while at < bytes.len() {
        match escape_step(state, bytes[at]) {
            EscapeStep::Goes(next) => {
                state = next;
                at += 1;
            }
            EscapeStep::Gives(code) => return Ok((code, at + 1)),
            EscapeStep::Wrong => return Err(at),
        }
    }
    Err(at)
}
