// What one layer answers, in the words of the next.
ghost use Rattle.std.specs.Prelude.{◌≡◌};
ghost use Rattle.povfix.specs.declared.outcome.Fault.TheVariants.{NoMemory, ShelfFault};
ghost use Rattle.povfix.specs.Conversions.{error_text, expression_fault, hold_fault, lex_fault, option_fault, parse_fault, status_of, stop_fault};

use crate::outcome::Fault;
use directive_machine::Stop;
use fix_math::Str;
use item_blocks::ParseFault;
use options::OptionFault;
use scene_expr::ExprFault;
use scene_lexer::LexFault;
use shelf::HoldFail;
use std::alloc::{AllocError, Global};

impl From<OptionFault> for Fault {
    ghost from_gives = { λ refusal fault. fault ≡ option_fault refusal };

    fn from(refusal: OptionFault) -> Fault {
        match refusal {
            OptionFault::UnknownWord(place) => Fault::OptionFault(1, place),
            OptionFault::BadNumber(place) => Fault::OptionFault(2, place),
            OptionFault::Missing(place) => Fault::OptionFault(3, place),
            OptionFault::Range(place) => Fault::OptionFault(4, place),
            OptionFault::AbsentIni(place) => Fault::OptionFault(5, place),
            OptionFault::BadLine(place) => Fault::OptionFault(6, place),
            OptionFault::OutOfProfile(place) => Fault::OptionFault(7, place),
            OptionFault::TextFault => Fault::TextFault,
            OptionFault::NoMemory => Fault::NoMemory,
        }
    }
}

impl From<LexFault> for Fault {
    ghost from_gives = { λ found fault. fault ≡ lex_fault found };

    fn from(found: LexFault) -> Fault {
        match found {
            LexFault::BadByte(place) => Fault::SceneFault(b'L', 1, place),
            LexFault::OpenComment(place) => Fault::SceneFault(b'L', 2, place),
            LexFault::OpenString(place) => Fault::SceneFault(b'L', 3, place),
            LexFault::LongName(place) => Fault::SceneFault(b'L', 4, place),
            LexFault::NumberRange(place) => Fault::SceneFault(b'L', 5, place),
            LexFault::NoMemory => Fault::NoMemory,
        }
    }
}

impl From<ExprFault> for Fault {
    ghost from_gives = { λ found fault. fault ≡ expression_fault found };

    fn from(found: ExprFault) -> Fault {
        match found {
            ExprFault::Expected(place) => Fault::SceneFault(b'E', 1, place),
            ExprFault::UnknownName(place) => Fault::SceneFault(b'E', 2, place),
            ExprFault::Kind(place) => Fault::SceneFault(b'E', 3, place),
            ExprFault::ZeroDivisor(place) => Fault::SceneFault(b'E', 4, place),
            ExprFault::Range(place) => Fault::SceneFault(b'E', 5, place),
            ExprFault::NoMemory => Fault::NoMemory,
        }
    }
}

/// The fault at which an expansion stops, and the text of an `#error`.
pub fn of_stop(alloc: Global, stop: Stop) -> (Fault, Str)
    ensures fault { result.0 ≡ stop_fault stop }
    ensures text { result.1 ≡ error_text stop }
{
    let none = Str::new(Vec::new(alloc));
    match stop {
        Stop::Lex(found) => (Fault::from(found), none),
        Stop::Expr(found) => (Fault::from(found), none),
        Stop::Directive { kind, place } => (Fault::SceneFault(b'D', kind, place), none),
        Stop::Absent { name, .. } => (Fault::Absent(name), none),
        Stop::TextFault => (Fault::TextFault, none),
        Stop::UserError { text, place } => (Fault::SceneFault(b'U', 6, place), text),
        Stop::Limit { which, place } => (Fault::Limit(which, place), none),
        Stop::NoMemory => (Fault::NoMemory, none),
    }
}

impl From<ParseFault> for Fault {
    ghost from_gives = { λ found fault. fault ≡ parse_fault found };

    fn from(found: ParseFault) -> Fault {
        match found {
            ParseFault::Expected { place, .. } => Fault::SceneFault(b'P', 1, place),
            ParseFault::OutOfProfile { place, .. } => Fault::SceneFault(b'P', 2, place),
            ParseFault::ValueRange { place } => Fault::SceneFault(b'P', 3, place),
            ParseFault::Xform { place, .. } => Fault::SceneFault(b'P', 4, place),
            ParseFault::Limit { which, place } => Fault::Limit(which, place),
            ParseFault::NoMemory => Fault::NoMemory,
        }
    }
}

impl From<HoldFail> for Fault {
    ghost from_gives = { λ fail fault. fault ≡ hold_fault fail };

    fn from(fail: HoldFail) -> Fault {
        match fail {
            HoldFail::Failed => Fault::ShelfFault,
            HoldFail::NoMemory => Fault::NoMemory,
        }
    }
}

impl From<AllocError> for Fault {
    ghost from_gives = { λ _ fault. fault ≡ NoMemory };

    fn from(_error: AllocError) -> Fault {
        Fault::NoMemory
    }
}

/// The exit status of a fault.
pub fn status(fault: &Fault) -> u8
    ensures { result ≡ status_of fault.now }
{
    match fault {
        Fault::Done => 0,
        Fault::OptionFault(..) => 1,
        Fault::SceneFault(..) => 2,
        Fault::Limit(..) => 3,
        Fault::Absent(_) => 4,
        Fault::TextFault => 5,
        Fault::ShelfFault => 7,
        Fault::MessageFault => 8,
        Fault::NoMemory => 9,
    }
}
