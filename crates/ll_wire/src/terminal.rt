//! Makes others' bytes safe for a terminal.

ghost use Rattle.std.specs.Prelude.{◌≡◌, ◌≤◌, ◌++◌, IfOk, OnOk, length, string_bytes};
ghost use Rattle.std.specs.List.{All};
ghost use Rattle.ll_wire.specs.Terminal.{IsPrinted, cut, digit, escaped, escaped_byte, is_printed, shown};

use std::alloc::{AllocError, Global};

/// The most characters of a text that are shown.
const MOST: usize = 200;

/// How many characters are shown of each end of a longer text.
const END: usize = 99;

fn is_printed(byte: u8) -> bool
    ensures { result ≡ is_printed byte }
{
    byte >= 32 && byte <= 126
}

// The digit in base 16 of a number less than 16.
fn digit(number: u8) -> char
    requires { number ≤ 15 }
    ensures { result ≡ digit number }
{
    if number <= 9 {
        (48 + number) as char
    } else {
        (87 + number) as char
    }
}

fn push_byte(text: &mut String, byte: u8) -> Result<(), AllocError>
    ensures { OnOk result (string_bytes text.new ≡ string_bytes text.old ++ escaped_byte byte) }
{
    if is_printed(byte) {
        return text.push(byte as char);
    }
    text.push('\\')?;
    text.push('x')?;
    text.push(digit(byte / 16 % 16))?;
    text.push(digit(byte % 16))
}

/// Returns the text with each byte that isn't printable ASCII replaced by `\x` and two digits. Errors: memory ran out.
pub fn escaped(alloc: Global, text: &[u8]) -> Result<String, AllocError>
    ensures escaped { IfOk result (λ it. string_bytes it ≡ escaped text.now) }
    ensures printed { IfOk result (λ it. All IsPrinted (string_bytes it)) }
{
    let mut told = String::new(alloc);
    for byte in text {
        push_byte(&mut told, *byte)?;
    }
    Ok(told)
}

// The text, or only its two ends if it is too long.
fn cut(alloc: Global, text: String) -> Result<String, AllocError>
    requires { All IsPrinted (string_bytes text) }
    ensures { IfOk result (λ it. string_bytes it ≡ cut (string_bytes text)) }
{
    let length = text.len();
    if length <= MOST {
        return Ok(text);
    }
    let mut ends = String::from_str(alloc, &text[..END])?;
    ends.push_str("..")?;
    ends.push_str(&text[length - END..])?;
    Ok(ends)
}

/// Returns the escaped text, or only its two ends if it is too long. Errors: memory ran out.
#[tactic(auto, using(crate::proofs::Printed::short_shown, crate::proofs::Printed::same_shown))]
pub fn shown(alloc: Global, text: &[u8]) -> Result<String, AllocError>
    ensures shown { IfOk result (λ it. string_bytes it ≡ shown text.now) }
    ensures printed { IfOk result (λ it. All IsPrinted (string_bytes it)) }
    ensures most { IfOk result (λ it. length (string_bytes it) ≤ 200) }
    ensures same { All IsPrinted text.now → length text.now ≤ 200
        → IfOk result (λ it. string_bytes it ≡ text.now) }
{
    let escaped = escaped(alloc, text)?;
    cut(alloc, escaped)
}
