//! Lower-case hexadecimal digits.

ghost use Rattle.std.specs.Prelude.{◌≡◌, ◌*◌, ◌++◌, OnOk, IsOkUnless, length};
ghost use Rattle.amqp_data.specs.Hexadecimal.{hex};

use amqp_data::{Error, hexadecimal_digit};

// Appends two digits for each byte, in one reservation.
pub(crate) fn push_hexadecimal(text: &mut Vec<u8>, bytes: &[u8]) -> Result<(), Error>
    ensures ok { OnOk result (text.new.items ≡ text.old.items ++ hex bytes.now) }
    ensures memory { IsOkUnless result Error.OutOfMemory }
{
    let start = text.len();
    // A vector cannot hold more than `usize::MAX` bytes.
    let Some(count) = bytes.len().checked_mul(2) else {
        return Err(Error::OutOfMemory);
    };
    let Some(end) = start.checked_add(count) else {
        return Err(Error::OutOfMemory);
    };
    text.resize(end, 0)?;
    fill_hexadecimal(&mut text[start..], bytes);
    Ok(())
}

// Writes two digits for each byte. Without a test in it, the loop is compiled to vector
// instructions.
fn fill_hexadecimal(digits: &mut [u8], bytes: &[u8])
    requires { length digits.old ≡ 2 * length bytes.now }
    ensures { digits.new ≡ hex bytes.now }
{
    for index in 0..bytes.len() {
        let byte = bytes[index];
        digits[2 * index] = hexadecimal_digit(byte / 16);
        digits[2 * index + 1] = hexadecimal_digit(byte % 16);
    }
}
