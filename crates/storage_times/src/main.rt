//! What drawing from the pool, a commit, and opening a state file take, by the clock.
#![tactic(auto)]

mod blocks;
mod claims;
mod commits;
mod draws;
mod idle;
mod opens;
mod states;

use std::{env, io};

/// What is written where the words name no measure.
const USAGE: &str = "storage_times claims COUNT WORKERS | commit FOLDER | open FOLDER";

/// What is measured.
enum Measure {
    Claims { count: u32, workers: u32 },
    Commit { folder: String },
    Open { folder: String },
    Nothing,
}

/// A number from 1 on, up to a greatest one.
fn number(word: &str, most: u32) -> Option<u32> {
    match word.parse::<u32>() {
        Ok(number) if 1 <= number && number <= most => Some(number),
        Ok(_) => None,
        Err(_) => None,
    }
}

fn claims_of(count: &str, workers: &str) -> Measure {
    let (Some(count), Some(workers)) = (number(count, 1 << 26), number(workers, 64)) else {
        return Measure::Nothing;
    };
    Measure::Claims { count, workers }
}

/// Reads the words behind the program's own name.
fn asked(rt: &HostRuntime) -> io::Result<Measure> {
    let mut words = env::args(rt)?.skip(1);
    let (Some(what), Some(first)) = (words.next(), words.next()) else {
        return Ok(Measure::Nothing);
    };
    if what.as_str() == "commit" {
        return Ok(Measure::Commit { folder: first });
    }
    if what.as_str() == "open" {
        return Ok(Measure::Open { folder: first });
    }
    match words.next() {
        Some(second) if what.as_str() == "claims" => Ok(claims_of(first.as_str(), second.as_str())),
        Some(_) => Ok(Measure::Nothing),
        None => Ok(Measure::Nothing),
    }
}

fn main(rt: HostRuntime) -> io::Result<()> {
    match asked(&rt)? {
        Measure::Claims { count, workers } => claims::run(&rt, rt.alloc(), count, workers),
        Measure::Commit { folder } => commits::run(&rt, folder.as_str()),
        Measure::Open { folder } => opens::run(&rt, folder.as_str()),
        Measure::Nothing => {
            println!(rt; "{USAGE}")?;
            Ok(())
        }
    }
}
