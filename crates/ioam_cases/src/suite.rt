//! Files of cases.
use crate::block::Block;
use crate::case::{Case, File};
use crate::fault::Fault;
use crate::fill::fill;
use crate::parser::{Parser, number};
use crate::play::play;
use ioam_base::memory::NoMemory;
use ioam_base::name::Name;
use std::alloc::Global;
use std::fmt;
use std::thread::Threads;

/// How many cases passed and failed.
#[derive(Drop)]
pub(crate) struct Counts {
    passed: u64,
    failed: u64,
}

impl Counts {
    pub(crate) fn new() -> Counts {
        Counts {
            passed: 0,
            failed: 0,
        }
    }

    pub(crate) fn has_failed(&self) -> bool {
        self.failed > 0
    }

    /// Counts a case, and says what came of it.
    pub(crate) fn count(
        &mut self,
        said: &mut String,
        name: &str,
        differences: &str,
    ) -> Result<(), NoMemory> {
        if differences.is_empty() {
            self.passed = self.passed.saturating_add(1);
            writeln!(said, "{name} passed")?;
        } else {
            self.failed = self.failed.saturating_add(1);
            write!(said, "{name} failed\n{differences}")?;
        }
        Ok(())
    }
}

impl fmt::Display for Counts {
    fn fmt<W: fmt::Write>(&self, f: &mut fmt::Formatter<W>) -> fmt::Result {
        let (passed, failed) = (self.passed, self.failed);
        write!(f, "{passed} cases passed, {failed} failed")
    }
}

// The lines of a definition or a case, and the number of the first of them.
#[derive(Drop)]
struct Section<'a> {
    first: usize,
    lines: Vec<&'a str>,
}

// A fault of a line.
#[derive(Clone, Copy)]
struct At {
    line: usize,
    fault: Fault,
}

/// Plays the cases of a file, and says what came of each.
pub(crate) fn play_text<R: Threads + Sync>(
    rt: &R,
    alloc: Global,
    file: &str,
    text: &str,
    counts: &mut Counts,
    said: &mut String,
) -> Result<(), NoMemory> {
    let mut definitions = Vec::new(alloc);
    let mut section = Section {
        first: 1,
        lines: Vec::new(alloc),
    };
    for (index, line) in text.lines().enumerate() {
        if line.starts_with("case ") || line.starts_with("define ") {
            play_section(rt, alloc, file, &section, &mut definitions, counts, said)?;
            section.lines.clear();
            section.first = index.saturating_add(1);
        }
        section.lines.push(line)?;
    }
    play_section(rt, alloc, file, &section, &mut definitions, counts, said)
}

// Keeps a definition, or plays a case.
fn play_section<R: Threads + Sync>(
    rt: &R,
    alloc: Global,
    file: &str,
    section: &Section<'_>,
    definitions: &mut Vec<File>,
    counts: &mut Counts,
    said: &mut String,
) -> Result<(), NoMemory> {
    let head = section.lines.first().copied().unwrap_or("");
    let mut differences = String::new(alloc);
    if let Some(name) = head.strip_prefix("case ") {
        let played = play_case(rt, alloc, section, definitions, &mut differences);
        say_fault(&mut differences, file, played)?;
        return counts.count(said, name, differences.as_str());
    }
    say_fault(&mut differences, file, define(alloc, section, definitions))?;
    if differences.is_empty() {
        return Ok(());
    }
    counts.count(said, head, differences.as_str())
}

// Says what is wrong with which line.
fn say_fault(said: &mut String, file: &str, answer: Result<(), At>) -> Result<(), NoMemory> {
    match answer {
        Ok(()) => Ok(()),
        Err(
            At {
                line,
                fault: Fault::Line(fault),
            },
        ) => {
            writeln!(said, "    {file} line {line}: {fault}")?;
            Ok(())
        }
        Err(_) => Err(NoMemory),
    }
}

fn is_empty(line: &str) -> bool {
    line.starts_with("#") || line.trim().is_empty()
}

// Keeps the definition of a section, which may also be blank.
fn define(alloc: Global, section: &Section<'_>, definitions: &mut Vec<File>) -> Result<(), At> {
    let mut name = None;
    let mut block = Block::new(alloc);
    for (index, line) in section.lines.iter().enumerate() {
        let at = section.first.saturating_add(index);
        if is_empty(line) {
            continue;
        }
        if let Some(word) = line.strip_prefix("define ") {
            name = Some(word.trim());
        } else if name.is_none() || line.trim_start().len() == line.len() {
            let fault = Fault::Line("no such word");
            return Err(At { line: at, fault });
        } else {
            block
                .read(line.trim_start(), definitions)
                .map_err(|fault| At { line: at, fault })?;
        }
    }
    match name {
        Some(name) => keep(alloc, name, block, definitions).map_err(|fault| At {
            line: section.first,
            fault,
        }),
        None => Ok(()),
    }
}

fn keep(alloc: Global, name: &str, block: Block, definitions: &mut Vec<File>) -> Result<(), Fault> {
    definitions.push(File {
        name: Name::new(alloc, name)?,
        octets: block.into_octets()?,
    })?;
    Ok(())
}

// Plays the case of a section, for each number of its `for`.
fn play_case<R: Threads + Sync>(
    rt: &R,
    alloc: Global,
    section: &Section<'_>,
    definitions: &[File],
    said: &mut String,
) -> Result<(), At> {
    let no_memory = |_| At {
        line: section.first,
        fault: Fault::NoMemory,
    };
    let Some((from, to)) = numbers(section)? else {
        let case = parse(alloc, section, definitions, None)?;
        return play(rt, alloc, &case, said).map_err(no_memory);
    };
    for number in from..to.saturating_add(1) {
        let case = parse(alloc, section, definitions, Some(number))?;
        let mut differences = String::new(alloc);
        play(rt, alloc, &case, &mut differences).map_err(no_memory)?;
        if !differences.is_empty() {
            write!(said, "  for n = {number}\n{differences}").map_err(|_| no_memory(NoMemory))?;
        }
    }
    Ok(())
}

// The least and the greatest number of a line `for n from A to B`.
fn numbers(section: &Section<'_>) -> Result<Option<(u64, u64)>, At> {
    for (index, line) in section.lines.iter().enumerate() {
        if let Some(rest) = line.strip_prefix("for ") {
            return bounds(rest).map(Some).map_err(|fault| At {
                line: section.first.saturating_add(index),
                fault,
            });
        }
    }
    Ok(None)
}

fn bounds(rest: &str) -> Result<(u64, u64), Fault> {
    let form = Fault::Line("not for n from A to B");
    let (from, to) = rest
        .strip_prefix("n from ")
        .ok_or(form)?
        .split_once(" to ")
        .ok_or(form)?;
    let (from, to) = (number(from)?, number(to)?);
    if from > to {
        return Err(form);
    }
    Ok((from, to))
}

// The case of a section, with this number for each `{n}`.
fn parse(
    alloc: Global,
    section: &Section<'_>,
    definitions: &[File],
    number: Option<u64>,
) -> Result<Case, At> {
    let mut parser = Parser::new(alloc);
    let mut at = section.first;
    for (index, line) in section.lines.iter().enumerate().skip(1) {
        at = section.first.saturating_add(index);
        let answer = match number {
            Some(number) => read_filled(alloc, &mut parser, line, definitions, number),
            None => parser.read(line, definitions),
        };
        answer.map_err(|fault| At { line: at, fault })?;
    }
    parser.finish().map_err(|fault| At { line: at, fault })
}

fn read_filled(
    alloc: Global,
    parser: &mut Parser,
    line: &str,
    definitions: &[File],
    number: u64,
) -> Result<(), Fault> {
    let line = fill(alloc, line, "n", number)?;
    parser.read(line.as_str(), definitions)
}
