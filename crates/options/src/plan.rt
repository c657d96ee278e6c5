// What the options of a run ask for.
ghost use Rattle.std.specs.Prelude.{◌≡◌, ◌++◌, [], ◌∷◌, length, OnOk, OnErr};

use fix_math::{Fix, Str};
use image_out::Sort;
use std::alloc::{AllocError, Global};
use std::marker::Model;

/// How a pixel is looked at again where it differs from its neighbours. (Reference manual, anti-aliasing options)
#[derive(Clone, Copy, Debug, PartialEq, Eq)]
pub struct Antialias {
    /// How much a pixel may differ from a neighbour, from 0 to 3.
    pub threshold: Fix,
    /// The root of the count of sub-pixels, from 1 to 9.
    pub depth: u32,
}

/// Where includes are searched for, after the name itself, in this order.
/// Contracts see it as the list of the paths.
#[derive(Drop)]
pub struct Libraries {
    paths: Vec<Str>,
}

impl Model for Libraries {
    ghost use Rattle.std.specs.Prelude.{List, ℕ};

    ghost Value = { List (List ℕ) };

    ghost view = { λ libraries. libraries.paths.items };
}

impl Libraries {
    /// No path.
    pub fn new(alloc: Global) -> Libraries
        ensures { result ≡ [] }
    {
        Libraries {
            paths: Vec::new(alloc),
        }
    }

    /// A further path behind the others. Where there is no memory for it, nothing changes.
    pub fn push(&mut self, path: Str) -> Result<(), AllocError>
        ensures added { OnOk result (self.new ≡ self.old ++ path ∷ []) }
        ensures refused { OnErr result (self.new ≡ self.old) }
    {
        self.paths.push(path)?;
        Ok(())
    }

    /// How many there are.
    pub fn len(&self) -> usize
        ensures { result ≡ length self.now }
    {
        self.paths.len()
    }

    /// The paths, from the first.
    pub fn paths(&self) -> &[Str]
        ensures { result.now ≡ self.now }
    {
        &self.paths
    }
}

/// What the options ask for.
#[derive(Drop)]
pub struct Plan {
    /// The name of the scene text.
    pub input: Str,
    /// How many balls the generated scene has; 0 where the scene is read.
    pub generate: u32,
    /// The name of the picture file, with its extension.
    pub output: Str,
    /// Pixels in a row, from 1 to 8192.
    pub width: u32,
    /// Rows, from 1 to 8192; a picture has at most 2^24 pixels.
    pub height: u32,
    pub sort: Sort,
    /// Bits of a sample: 8 or 16, and 8 for a Targa.
    pub bits: u32,
    pub antialias: Option<Antialias>,
    /// Whether a trace is continued.
    pub resume: bool,
    /// How many threads trace, from 1 to 64.
    pub workers: u32,
    /// At most 16.
    pub libraries: Libraries,
    /// Whether there is a row of frames.
    pub animated: bool,
    /// The clock of a single frame.
    pub clock: Fix,
    /// The number of the first frame, from 1.
    pub first: u32,
    /// The number of the last frame, at most 999,999.
    pub last: u32,
    pub initial_clock: Fix,
    pub final_clock: Fix,
    /// Whether the clock of the frame behind the last is the final one.
    pub cyclic: bool,
    /// The first frame to render.
    pub from: u32,
    /// The last frame to render.
    pub to: u32,
}
