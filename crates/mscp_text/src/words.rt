// Text that grows: words, numbers and hexadecimal digits.

ghost use Rattle.std.specs.Prelude.{◌≡◌, ◌≤◌, ◌++◌, length, OnErr, OnOk};
ghost use Rattle.hex.specs.Hex.{encode_lower};

use crate::digits::write_hex;
use crate::out::Out;
use itoa::{Buffer, Integer};
use std::alloc::AllocError;

/// Appends words.
///
/// # Errors
///
/// `AllocError` if what it writes to refuses a text.
pub fn put<O: Out>(out: &mut O, words: &str) -> Result<(), AllocError>
    ensures text { OnOk result (O.text out.new ≡ O.text out.old ++ words.now) }
    ensures refused { OnErr result O.refuses }
{
    out.append(words.as_bytes())
}

/// Appends a number, in decimal digits.
pub(crate) fn put_number<N: Integer, O: Out>(out: &mut O, number: N) -> Result<(), AllocError>
    ensures text { OnOk result (O.text out.new ≡ O.text out.old ++ N.text number) }
    ensures refused { OnErr result O.refuses }
{
    put(out, Buffer::new().format(number))
}

/// Appends words and then a number.
///
/// # Errors
///
/// `AllocError` if what it writes to refuses a text.
pub fn put_field<N: Integer, O: Out>(out: &mut O, words: &str, number: N) -> Result<(), AllocError>
    ensures text { OnOk result (O.text out.new ≡ O.text out.old ++ (words.now ++ N.text number)) }
    ensures refused { OnErr result O.refuses }
{
    put(out, words)?;
    put_number(out, number)
}

/// Appends words and a number, and then other words and a number.
pub(crate) fn put_two<N: Integer, M: Integer, O: Out>(
    out: &mut O,
    words: &str,
    number: N,
    more: &str,
    other: M,
) -> Result<(), AllocError>
    ensures text { OnOk result (O.text out.new
        ≡ O.text out.old ++ (words.now ++ N.text number) ++ (more.now ++ M.text other)) }
    ensures refused { OnErr result O.refuses }
{
    put_field(out, words, number)?;
    put_field(out, more, other)
}

/// Appends at most 48 bytes, each as two lower case hexadecimal digits.
pub(crate) fn put_hex<O: Out>(out: &mut O, bytes: &[u8]) -> Result<(), AllocError>
    requires { length bytes.now ≤ 48 }
    ensures text { OnOk result (O.text out.new ≡ O.text out.old ++ encode_lower bytes.now) }
    ensures refused { OnErr result O.refuses }
{
    let mut room = [0u8; 96];
    let digits = &mut room[..2 * bytes.len()];
    write_hex(bytes, digits);
    out.append(digits)
}
