//! The octets of a block: lines of text, of hexadecimal digits and of names of definitions.
use crate::case::File;
use crate::fault::Fault;
use crate::fill::fill;
use std::alloc::Global;

/// The octets of the block that is being read.
#[derive(Drop)]
pub(crate) struct Block {
    alloc: Global,
    octets: Vec<u8>,
    // How often the lines up to `end` stand there, and these lines.
    times: Option<u64>,
    lines: Vec<String>,
}

impl Block {
    pub(crate) fn new(alloc: Global) -> Block {
        Block {
            alloc,
            octets: Vec::new(alloc),
            times: None,
            lines: Vec::new(alloc),
        }
    }

    /// The octets. A `repeat` without its `end` is a fault.
    pub(crate) fn into_octets(self) -> Result<Vec<u8>, Fault> {
        match self.times {
            Some(_) => Err(Fault::Line("repeat without end")),
            None => Ok(self.octets),
        }
    }

    /// Reads one line, without the blanks before it.
    pub(crate) fn read(&mut self, line: &str, definitions: &[File]) -> Result<(), Fault> {
        if let Some(times) = self.times {
            if line.trim_end() == "end" {
                return self.repeat(times, definitions);
            }
            self.lines.push(String::from_str(self.alloc, line)?)?;
            return Ok(());
        }
        if let Some(times) = line.strip_prefix("repeat ") {
            let times = times.trim().parse::<u64>();
            self.times = Some(times.map_err(|_| Fault::Line("no number of times"))?);
            return Ok(());
        }
        put_line(self.alloc, &mut self.octets, line, definitions)
    }

    fn repeat(&mut self, times: u64, definitions: &[File]) -> Result<(), Fault> {
        for index in 1..times.saturating_add(1) {
            for line in self.lines.iter() {
                let line = fill(self.alloc, line.as_str(), "i", index)?;
                put_line(self.alloc, &mut self.octets, line.as_str(), definitions)?;
            }
        }
        self.times = None;
        self.lines.clear();
        Ok(())
    }
}

// Appends the octets of one line: `|` text and a line feed, `\` text, or digits.
fn put_line(
    alloc: Global,
    out: &mut Vec<u8>,
    line: &str,
    definitions: &[File],
) -> Result<(), Fault> {
    if let Some(text) = line.strip_prefix("|") {
        out.extend_from_slice(text.as_bytes())?;
        out.push(b'\n')?;
        return Ok(());
    }
    if let Some(text) = line.strip_prefix("\\") {
        out.extend_from_slice(text.as_bytes())?;
        return Ok(());
    }
    let mut last = Vec::new(alloc);
    for token in line.split_whitespace() {
        if token.starts_with("#") {
            return Ok(());
        }
        put_token(alloc, out, &mut last, token, definitions)?;
    }
    Ok(())
}

// Appends the octets of a token: `@NAME`, `xN` for `N` times the token before, or hexadecimal digits.
fn put_token(
    alloc: Global,
    out: &mut Vec<u8>,
    last: &mut Vec<u8>,
    token: &str,
    definitions: &[File],
) -> Result<(), Fault> {
    if let Some(times) = token.strip_prefix("x") {
        let times = times.parse::<u64>();
        for _ in 1..times.map_err(|_| Fault::Line("no number of times"))? {
            out.extend_from_slice(last)?;
        }
        return Ok(());
    }
    last.clear();
    if let Some(name) = token.strip_prefix("@") {
        let mut named = definitions.iter().filter(|file| file.name.text() == name);
        let file = named.next().ok_or(Fault::Line("no such definition"))?;
        last.extend_from_slice(&file.octets)?;
    } else {
        *last = hex::decode(alloc, token.as_bytes()).map_err(|_| Fault::Line("no octets"))?;
    }
    out.extend_from_slice(last)?;
    Ok(())
}
