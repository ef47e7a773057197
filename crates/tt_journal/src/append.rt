//! Bytes and numbers behind a text.

ghost use Rattle.std.specs.Prelude.{◌≡◌, ◌++◌, OnOk};
ghost use Rattle.std.specs.Fmt.{decimal, signed_decimal};

use itoa::Buffer;
use std::alloc::AllocError;

/// Appends the text and a place, or a number of as few bits, behind it.
pub fn write_placed(text: &[u8], place: u32, out: &mut Vec<u8>) -> Result<(), AllocError>
    ensures ok { OnOk result (out.new.items ≡ out.old.items ++ (text.now ++ decimal place)) }
{
    write_numbered(text, u64::from(place), out)
}

/// Appends the text and the number behind it.
pub fn write_numbered(text: &[u8], number: u64, out: &mut Vec<u8>) -> Result<(), AllocError>
    ensures ok { OnOk result (out.new.items ≡ out.old.items ++ (text.now ++ decimal number)) }
{
    write_bytes(text, out)?;
    write_number(number, out)?;
    Ok(())
}

pub fn write_number(number: u64, out: &mut Vec<u8>) -> Result<(), AllocError>
    ensures ok { OnOk result (out.new.items ≡ out.old.items ++ decimal number) }
{
    let mut digits = Buffer::new();
    write_bytes(digits.format(number).as_bytes(), out)
}

/// Appends the text and the number behind it.
pub fn write_signed(text: &[u8], number: i64, out: &mut Vec<u8>) -> Result<(), AllocError>
    ensures ok { OnOk result (out.new.items
        ≡ out.old.items ++ (text.now ++ signed_decimal number)) }
{
    let mut digits = Buffer::new();
    write_bytes(text, out)?;
    write_bytes(digits.format(number).as_bytes(), out)?;
    Ok(())
}

pub fn write_bytes(bytes: &[u8], out: &mut Vec<u8>) -> Result<(), AllocError>
    ensures ok { OnOk result (out.new.items ≡ out.old.items ++ bytes.now) }
{
    out.extend_from_slice(bytes)
}
