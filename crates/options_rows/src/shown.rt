// What words come to, as a line.
use directive_machine::MemTexts;
use fix_math::Fix;
use image_out::Sort;
use options::{Antialias, OptionFault, Plan, Where, read};
use std::alloc::{AllocError, Global};

/// Words as the program gets them.
pub fn asked(alloc: Global, words: &[&str]) -> Result<Vec<String>, AllocError> {
    let mut asked = Vec::new(alloc);
    for word in words {
        asked.push(String::from_str(alloc, word)?)?;
    }
    Ok(asked)
}

/// Texts in memory.
pub fn held(alloc: Global, texts: &[(&str, &[u8])]) -> Result<MemTexts, AllocError> {
    let mut held = MemTexts::new(alloc);
    for (name, bytes) in texts {
        held.add(alloc, name.as_bytes(), bytes)?;
    }
    Ok(held)
}

fn sort(sort: Sort) -> &'static str {
    match sort {
        Sort::Ppm => "P",
        Sort::Targa => "T",
        Sort::TargaRle => "C",
    }
}

fn add_flag(line: &mut String, flag: bool, word: &str) -> Result<(), AllocError> {
    if flag {
        line.push_str(word)?;
    }
    Ok(())
}

fn add_number(
    alloc: Global,
    line: &mut String,
    number: u32,
    usual: u32,
    word: &str,
) -> Result<(), AllocError> {
    if number != usual {
        let told = format!(in alloc; " {word} {number}")?;
        line.push_str(told.as_str())?;
    }
    Ok(())
}

fn add_antialias(
    alloc: Global,
    line: &mut String,
    antialias: Option<Antialias>,
) -> Result<(), AllocError> {
    let Some(antialias) = antialias else {
        return Ok(());
    };
    let threshold = antialias.threshold.raw();
    let depth = antialias.depth;
    let told = format!(in alloc; " smooth {threshold} by {depth}")?;
    line.push_str(told.as_str())?;
    Ok(())
}

fn add_libraries(alloc: Global, line: &mut String, plan: &Plan) -> Result<(), AllocError> {
    for path in plan.libraries.paths() {
        let path = str::from_utf8(path.bytes()).unwrap_or("?");
        let told = format!(in alloc; " in {path}")?;
        line.push_str(told.as_str())?;
    }
    Ok(())
}

fn add_clock(alloc: Global, line: &mut String, clock: Fix) -> Result<(), AllocError> {
    let raw = clock.raw();
    if raw != 0 {
        let told = format!(in alloc; " clock {raw}")?;
        line.push_str(told.as_str())?;
    }
    Ok(())
}

fn add_clocks(alloc: Global, line: &mut String, initial: Fix, end: Fix) -> Result<(), AllocError> {
    let initial = initial.raw();
    let end = end.raw();
    if initial != 0 || end != 65536 {
        let told = format!(in alloc; " clocks {initial}..{end}")?;
        line.push_str(told.as_str())?;
    }
    Ok(())
}

fn add_film(alloc: Global, line: &mut String, plan: &Plan) -> Result<(), AllocError> {
    let first = plan.first;
    let last = plan.last;
    let from = plan.from;
    let to = plan.to;
    if plan.animated {
        let told = format!(in alloc; " film {first}..{last}")?;
        line.push_str(told.as_str())?;
    }
    if from != first || to != last {
        let told = format!(in alloc; " part {from}..{to}")?;
        line.push_str(told.as_str())?;
    }
    Ok(())
}

fn add_trace(alloc: Global, line: &mut String, plan: &Plan) -> Result<(), AllocError> {
    add_number(alloc, line, plan.generate, 0, "balls")?;
    add_antialias(alloc, line, plan.antialias)?;
    add_flag(line, plan.resume, " continued")?;
    add_number(alloc, line, plan.workers, 4, "workers")?;
    add_libraries(alloc, line, plan)?;
    Ok(())
}

fn add_frames(alloc: Global, line: &mut String, plan: &Plan) -> Result<(), AllocError> {
    add_clock(alloc, line, plan.clock)?;
    add_clocks(alloc, line, plan.initial_clock, plan.final_clock)?;
    add_film(alloc, line, plan)?;
    add_flag(line, plan.cyclic, " anew")?;
    Ok(())
}

/// The input, the picture's name, its sides, sort and bits; then what isn't as usual.
fn plan_shown(alloc: Global, plan: &Plan) -> Result<String, AllocError> {
    let input = str::from_utf8(plan.input.bytes()).unwrap_or("?");
    let output = str::from_utf8(plan.output.bytes()).unwrap_or("?");
    let width = plan.width;
    let height = plan.height;
    let sort = sort(plan.sort);
    let bits = plan.bits;
    let mut line = format!(in alloc; "{input} to {output} {width}x{height} {sort}{bits}")?;
    add_trace(alloc, &mut line, plan)?;
    add_frames(alloc, &mut line, plan)?;
    Ok(line)
}

fn placed(alloc: Global, kind: &str, place: Where) -> Result<String, AllocError> {
    match place {
        Where::Word(number) => format!(in alloc; "{kind} at word {number}"),
        Where::Line(number) => format!(in alloc; "{kind} at line {number}"),
    }
}

fn fault_shown(alloc: Global, fault: OptionFault) -> Result<String, AllocError> {
    match fault {
        OptionFault::UnknownWord(place) => placed(alloc, "unknown", place),
        OptionFault::BadNumber(place) => placed(alloc, "no number", place),
        OptionFault::Missing(place) => placed(alloc, "missing", place),
        OptionFault::Range(place) => placed(alloc, "range", place),
        OptionFault::AbsentIni(place) => placed(alloc, "absent", place),
        OptionFault::BadLine(place) => placed(alloc, "bad line", place),
        OptionFault::OutOfProfile(place) => placed(alloc, "out of profile", place),
        OptionFault::TextFault => String::from_str(alloc, "text fault"),
        OptionFault::NoMemory => String::from_str(alloc, "no memory"),
    }
}

/// The plan or the refusal of words over texts.
pub fn told(alloc: Global, words: &[&str], texts: &[(&str, &[u8])]) -> Result<String, AllocError> {
    let asked = asked(alloc, words)?;
    let mut held = held(alloc, texts)?;
    match read(alloc, &asked, &mut held) {
        Ok(plan) => plan_shown(alloc, &plan),
        Err(fault) => fault_shown(alloc, fault),
    }
}
