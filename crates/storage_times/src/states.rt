//! State files in a real folder.
ghost use Rattle.std.specs.Prelude.{◌≡◌, ℕ, IfOk, false};
ghost use Rattle.state_file.specs.Blocks.{AreBlocks};
ghost use Rattle.state_file.specs.Pens.{knows_open, layout_in};
ghost use Rattle.state_file.specs.Shape.{IsInLimits};

use shelf::FolderShelf;
use state_file::{DoneBlock, Geometry, OpenFault, Pen, open};
use std::io;
use std::time::{Duration, Instant};

/// A pen of a file in a real folder.
pub type FolderPen = Pen<FolderShelf<HostRuntime>>;

/// What went wrong, as an error of the system.
fn error(fault: OpenFault) -> io::Error {
    match fault {
        OpenFault::OtherState { place: _, kept: _ } => io::ErrorKind::InvalidData.into(),
        OpenFault::ShelfFault => io::ErrorKind::Other.into(),
        OpenFault::NoMemory => io::ErrorKind::OutOfMemory.into(),
    }
}

/// Opens a state file, and tells what that took.
pub fn timed_open(
    rt: &HostRuntime,
    name: &str,
    geometry: Geometry,
    resume: bool,
) -> io::Result<(FolderPen, Duration)>
    requires limits { IsInLimits geometry }
    ensures geometry { IfOk result (λ made. made.0.frame.geometry ≡ geometry) }
    ensures closed { IfOk result (λ made. resume ≡ false → (b : ℕ) → knows_open made.0 b → ⊥) }
{
    let key = vec![in rt.alloc(); 7u8; 103]?;
    let shelf = FolderShelf::new(*rt, rt.alloc());
    let start = Instant::now(rt)?;
    match open(rt.alloc(), shelf, name.as_bytes(), key, geometry, resume) {
        Ok(pen) => {
            let time = start.elapsed(rt)?;
            Ok((pen, time))
        }
        Err((fault, _shelf)) => Err(error(fault)),
    }
}

/// Commits these blocks, and tells what that took.
pub fn timed_commit(rt: &HostRuntime, pen: FolderPen, blocks: &[DoneBlock]) -> io::Result<Duration>
    requires blocks { AreBlocks (layout_in pen) blocks.now }
    requires closed { (b : ℕ) → knows_open pen b → ⊥ }
{
    let start = Instant::now(rt)?;
    let (_pen, result) = pen.commit(blocks);
    let time = start.elapsed(rt)?;
    match result {
        Ok(()) => Ok(time),
        Err(_failed) => Err(io::ErrorKind::Other.into()),
    }
}
