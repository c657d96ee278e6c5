// The key of a frame.
ghost use Rattle.std.specs.Prelude.{◌≡◌, ◌≤◌, ◌<◌, ◌+◌, ◌^◌, ◌++◌, length, Some, IfOk, OnOk};
ghost use Rattle.std.specs.List.{flat_map};
ghost use Rattle.options.specs.Plans.{IsPlan};
ghost use Rattle.options.specs.Frames.{IsFrame};
ghost use Rattle.options.specs.Keys.{source_bytes, size_bytes, clock_bytes, frame_bytes, antialias_bytes, key_of, source_length, AreKept};

use crate::append::{append, append_counted, append_raw, append_u32};
use crate::frames::clock;
use crate::plan::{Antialias, Plan};
use directive_machine::{Flat, Source};
use std::alloc::{AllocError, Global};

fn append_sizes(out: &mut Vec<u8>, p: &Plan) -> Result<(), AllocError>
    ensures { OnOk result (out.new.items ≡ out.old.items ++ size_bytes p.now) }
{
    append_u32(out, p.width)?;
    append_u32(out, p.height)?;
    Ok(())
}

fn append_clocks(out: &mut Vec<u8>, p: &Plan, frame: u32) -> Result<(), AllocError>
    requires plan { IsPlan p.now }
    requires frame { IsFrame p.now frame }
    ensures { OnOk result (out.new.items ≡ out.old.items ++ clock_bytes p.now frame) }
{
    append_raw(out, clock(p, frame))?;
    append_raw(out, p.initial_clock)?;
    append_raw(out, p.final_clock)?;
    Ok(())
}

fn append_frames(out: &mut Vec<u8>, p: &Plan, frame: u32) -> Result<(), AllocError>
    ensures { OnOk result (out.new.items ≡ out.old.items ++ frame_bytes p.now frame) }
{
    append_u32(out, frame)?;
    append_u32(out, p.first)?;
    append_u32(out, p.last)?;
    Ok(())
}

fn append_source(out: &mut Vec<u8>, source: &Source) -> Result<(), AllocError>
    requires { source_length source.now ≤ 2 ^ 24 }
    ensures { OnOk result (out.new.items ≡ out.old.items ++ source_bytes source.now) }
{
    append_counted(out, source.name.bytes())?;
    append_counted(out, source.text.bytes())?;
    Ok(())
}

#[tactic(auto, using(crate::proofs::KeyLemmas::kept_each, crate::proofs::KeyLemmas::sources_more, crate::proofs::KeyLemmas::sources_all))]
fn append_sources(out: &mut Vec<u8>, files: &[Source]) -> Result<(), AllocError>
    requires { AreKept files.now }
    ensures { OnOk result (out.new.items ≡ out.old.items ++ flat_map source_bytes files.now) }
{
    for source in files {
        append_source(out, source)?;
    }
    Ok(())
}

fn append_smooth(out: &mut Vec<u8>, antialias: Antialias) -> Result<(), AllocError>
    ensures { OnOk result (out.new.items ≡ out.old.items ++ antialias_bytes (Some antialias)) }
{
    append(out, b"AA")?;
    append_raw(out, antialias.threshold)?;
    append_u32(out, antialias.depth)?;
    Ok(())
}

fn append_antialias(out: &mut Vec<u8>, antialias: Option<Antialias>) -> Result<(), AllocError>
    ensures { OnOk result (out.new.items ≡ out.old.items ++ antialias_bytes antialias) }
{
    match antialias {
        Some(antialias) => {
            append_smooth(out, antialias)?;
            Ok(())
        }
        None => Ok(()),
    }
}

/// The key of a frame from `from` to `to`: the bytes that a state file is bound to. Numbers are little-endian, clocks
/// and the threshold of supersampling raw. Texts stand in the order of first reading, each under the name under which
/// it was found. The workers, the picture's name and its sort aren't in it.
#[tactic(auto, using(crate::proofs::KeyLemmas::few_kept))]
pub fn key(alloc: Global, p: &Plan, flat: &Flat, frame: u32) -> Result<Vec<u8>, AllocError>
    requires plan { IsPlan p.now }
    requires frame { IsFrame p.now frame }
    requires files { AreKept flat.now.files.items }
    ensures value { IfOk result (λ key. key.items ≡ key_of p.now flat.now.files.items frame) }
    ensures most { IfOk result (λ key. length key.items ≤ 2 ^ 24 + 70) }
{
    let mut key = Vec::new(alloc);
    append(&mut key, b"POVFIX02")?;
    append_sizes(&mut key, p)?;
    append_clocks(&mut key, p, frame)?;
    append_frames(&mut key, p, frame)?;
    append_u32(&mut key, flat.files.len() as u32)?;
    append_sources(&mut key, &flat.files)?;
    append_antialias(&mut key, p.antialias)?;
    Ok(key)
}
