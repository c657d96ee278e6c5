// The text of a generated scene.
ghost use Rattle.std.specs.Prelude.{◌≡◌, ◌++◌, IfOk, OnOk};
ghost use Rattle.options.specs.Generated.{surroundings, place_of, colour_of, ball, generated_text};

use crate::append::{append, append_decimal, append_signed};
use std::alloc::{AllocError, Global};

fn append_surroundings(out: &mut Vec<u8>) -> Result<(), AllocError>
    ensures { OnOk result (out.new.items ≡ out.old.items ++ surroundings) }
{
    append(out, b"global_settings { assumed_gamma 1 }\n")?;
    append(out, b"background { rgb <0.2,0.3,0.5> }\n")?;
    append(out, b"camera { location <0,6,-14> look_at <0,0,0> }\n")?;
    append(out, b"light_source { <10,20,-10>, rgb 1 }\n")?;
    append(out, b"plane { y, -1 pigment { checker rgb 1, rgb 0.2 } }\n")?;
    Ok(())
}

fn append_place(out: &mut Vec<u8>, number: u32) -> Result<(), AllocError>
    ensures { OnOk result (out.new.items ≡ out.old.items ++ place_of number) }
{
    append_signed(out, (number % 32) as i32 - 16)?;
    append(out, b",0,")?;
    append_decimal(out, number / 32)?;
    Ok(())
}

fn append_colour(out: &mut Vec<u8>, number: u32) -> Result<(), AllocError>
    ensures { OnOk result (out.new.items ≡ out.old.items ++ colour_of number) }
{
    append_decimal(out, number % 2)?;
    append(out, b",")?;
    append_decimal(out, number / 2 % 2)?;
    append(out, b",1")?;
    Ok(())
}

fn append_ball(out: &mut Vec<u8>, number: u32) -> Result<(), AllocError>
    ensures { OnOk result (out.new.items ≡ out.old.items ++ ball number) }
{
    append(out, b"sphere { <")?;
    append_place(out, number)?;
    append(out, b">, 0.4 pigment { rgb <")?;
    append_colour(out, number)?;
    append(out, b"> } finish { reflection 0.2 } }\n")?;
    Ok(())
}

/// The text of a generated scene of so many balls, a line each. (The scene and its name are this program's own.)
pub fn generated(alloc: Global, n: u32) -> Result<Vec<u8>, AllocError>
    ensures { IfOk result (λ text. text.items ≡ generated_text n) }
{
    let mut text = Vec::new(alloc);
    append_surroundings(&mut text)?;
    for number in 0..n {
        append_ball(&mut text, number)?;
    }
    Ok(text)
}
