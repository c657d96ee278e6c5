// How a frame ends that isn't finished, and what is still to be said of it.
ghost use Rattle.std.specs.Prelude.{◌≡◌, None, Some};
ghost use Rattle.povfix.specs.declared.outcome.Fault.TheVariants.{NoMemory};
ghost use Rattle.povfix.specs.Conversions.{hold_fault, option_fault};
ghost use Rattle.povfix.specs.Lines.{name_under, text_number};

use crate::outcome::Fault;
use fix_math::Str;
use options::OptionFault;
use scene_lexer::Place;
use shelf::HoldFail;
use std::alloc::{AllocError, Global};

/// What is still to be said where a scene is refused.
#[derive(Drop)]
pub struct Report {
    /// The messages up to the fault that aren't written yet.
    pub messages: Vec<u8>,
    /// The name of the text in which the fault stands.
    pub name: Str,
    /// The text of an `#error`, and nothing for another fault.
    pub text: Str,
}

/// A fault that ends a frame, and what is still to be said besides its line.
#[derive(Drop)]
pub struct Ending {
    pub fault: Fault,
    pub report: Option<Report>,
}

impl Ending {
    /// A fault in a scene whose texts have these names, by their numbers.
    pub fn in_scene(
        alloc: Global,
        fault: Fault,
        messages: Vec<u8>,
        names: Vec<Str>,
        text: Str,
    ) -> Ending
        ensures { result ≡ record { fault = fault; report = Some (record { messages = messages; name = name_under names.items (text_number fault); text = text }) } }
    {
        let name = name_under(alloc, names, number(&fault));
        Ending {
            fault,
            report: Some(Report {
                messages,
                name,
                text,
            }),
        }
    }
}

/// The number of the text in which a fault stands.
fn number(fault: &Fault) -> u32
    ensures { result ≡ text_number fault.now }
{
    match fault {
        Fault::SceneFault(_, _, place) => place.file,
        Fault::Limit(_, place) => place.file,
        _ => 0,
    }
}

/// The name of a text by its number.
fn name_under(alloc: Global, mut names: Vec<Str>, number: u32) -> Str
    ensures { result ≡ name_under names.items number }
{
    let number = number as usize;
    if number < names.len() {
        names.swap_remove(number)
    } else {
        Str::new(Vec::new(alloc))
    }
}

impl From<Fault> for Ending {
    ghost from_gives = { λ fault ending. ending ≡ record { fault = fault; report = None } };

    fn from(fault: Fault) -> Ending {
        Ending {
            fault,
            report: None,
        }
    }
}

impl From<HoldFail> for Ending {
    ghost from_gives = { λ fail ending. ending ≡ record { fault = hold_fault fail; report = None } };

    fn from(fail: HoldFail) -> Ending {
        Ending {
            fault: Fault::from(fail),
            report: None,
        }
    }
}

impl From<AllocError> for Ending {
    ghost from_gives = { λ _ ending. ending ≡ record { fault = NoMemory; report = None } };

    fn from(_error: AllocError) -> Ending {
        Ending {
            fault: Fault::NoMemory,
            report: None,
        }
    }
}
