// Bytes at the end of a list.
ghost use Rattle.std.specs.Prelude.{◌≡◌, ◌<◌, ◌^◌, ◌++◌, length, OnOk};
ghost use Rattle.std.specs.Fmt.{decimal, signed_decimal};
ghost use Rattle.byteorder.specs.Endian.{little_bytes};
ghost use Rattle.options.specs.Keys.{raw_bytes, counted_bytes};

use byteorder::{ByteOrder, LittleEndian};
use fix_math::Fix;
use itoa::Buffer;
use std::alloc::AllocError;

pub fn append(out: &mut Vec<u8>, bytes: &[u8]) -> Result<(), AllocError>
    ensures { OnOk result (out.new.items ≡ out.old.items ++ bytes.now) }
{
    out.extend_from_slice(bytes)?;
    Ok(())
}

/// Appends a number's decimal digits.
pub fn append_decimal(out: &mut Vec<u8>, number: u32) -> Result<(), AllocError>
    ensures { OnOk result (out.new.items ≡ out.old.items ++ decimal number) }
{
    let mut buffer = Buffer::new();
    append(out, buffer.format(number).as_bytes())?;
    Ok(())
}

/// Appends a number's sign, where it is a minus, and its decimal digits.
pub fn append_signed(out: &mut Vec<u8>, number: i32) -> Result<(), AllocError>
    ensures { OnOk result (out.new.items ≡ out.old.items ++ signed_decimal number) }
{
    let mut buffer = Buffer::new();
    append(out, buffer.format(number).as_bytes())?;
    Ok(())
}

/// Appends a number as four bytes, the lowest first.
pub fn append_u32(out: &mut Vec<u8>, number: u32) -> Result<(), AllocError>
    ensures { OnOk result (out.new.items ≡ out.old.items ++ little_bytes 4 number) }
{
    let mut bytes = [0u8; 4];
    LittleEndian::write_u32(&mut bytes, number);
    append(out, &bytes)?;
    Ok(())
}

/// Appends a raw number as eight bytes, the lowest first.
pub fn append_raw(out: &mut Vec<u8>, number: Fix) -> Result<(), AllocError>
    ensures { OnOk result (out.new.items ≡ out.old.items ++ raw_bytes number) }
{
    let Fix(raw) = number;
    let mut bytes = [0u8; 8];
    LittleEndian::write_u64(&mut bytes, raw.cast_unsigned());
    append(out, &bytes)?;
    Ok(())
}

/// Appends bytes behind their count.
pub fn append_counted(out: &mut Vec<u8>, bytes: &[u8]) -> Result<(), AllocError>
    requires { length bytes.now < 2 ^ 32 }
    ensures { OnOk result (out.new.items ≡ out.old.items ++ counted_bytes bytes.now) }
{
    append_u32(out, bytes.len() as u32)?;
    append(out, bytes)?;
    Ok(())
}
