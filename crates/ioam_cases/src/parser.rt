//! The lines of a case.
use crate::block::Block;
use crate::case::{Case, EachCall, File, State, Step};
use crate::fault::Fault;
use ioam_base::name::Name;
use std::alloc::Global;
use std::mem;

// What the block that is being read belongs to.
#[derive(Drop)]
enum Owner {
    Nothing,
    Put(Name, usize),
    Output(Name),
    Begins(Name),
}

/// Reads the lines of a case that follow its first.
#[derive(Drop)]
pub(crate) struct Parser {
    alloc: Global,
    case: Case,
    owner: Owner,
    block: Block,
    // Whether the last run waits for its answer, and whether there was a run.
    unanswered: bool,
    has_run: bool,
}

impl Parser {
    pub(crate) fn new(alloc: Global) -> Parser {
        Parser {
            alloc,
            case: Case {
                pieces: Vec::new(alloc),
                call: 0,
                steps: Vec::new(alloc),
                each_call: None,
            },
            owner: Owner::Nothing,
            block: Block::new(alloc),
            unanswered: false,
            has_run: false,
        }
    }

    /// Reads one line.
    pub(crate) fn read(&mut self, line: &str, definitions: &[File]) -> Result<(), Fault> {
        let text = line.trim_start();
        if text.is_empty() || line.starts_with("#") {
            return Ok(());
        }
        if text.len() == line.len() {
            self.close()?;
            let (word, rest) = line.split_once(" ").unwrap_or((line, ""));
            return self.direct(word, rest.trim());
        }
        match self.owner {
            Owner::Nothing => Err(Fault::Line("a block of nothing")),
            _ => self.block.read(text, definitions),
        }
    }

    /// The case whose lines were read.
    pub(crate) fn finish(mut self) -> Result<Case, Fault> {
        self.close()?;
        if self.unanswered || !self.has_run {
            return Err(Fault::Line("no answer"));
        }
        Ok(self.case)
    }

    // Ends the block that is being read.
    fn close(&mut self) -> Result<(), Fault> {
        let block = mem::replace(&mut self.block, Block::new(self.alloc));
        let octets = block.into_octets()?;
        match mem::replace(&mut self.owner, Owner::Nothing) {
            Owner::Nothing => Ok(()),
            Owner::Put(name, most) => {
                let mut octets = octets;
                octets.truncate(most);
                self.step(Step::Put(File { name, octets }))
            }
            Owner::Output(name) => self.output(File { name, octets }),
            Owner::Begins(name) => self.step(Step::Begins(File { name, octets })),
        }
    }

    fn step(&mut self, step: Step) -> Result<(), Fault> {
        self.case.steps.push(step)?;
        Ok(())
    }

    // An output of the case, or of the last state of which lines were read.
    fn output(&mut self, file: File) -> Result<(), Fault> {
        if let Some(each_call) = &mut self.case.each_call {
            if let Some(state) = each_call.states.last_mut() {
                state.outputs.push(file)?;
                return Ok(());
            }
        }
        self.step(Step::Output(file))
    }

    // Reads a line that is no block's, by its first word.
    fn direct(&mut self, word: &str, rest: &str) -> Result<(), Fault> {
        match word {
            "for" => Ok(()),
            "pieces" => self.pieces(rest),
            "call" => self.call(rest),
            "file" => self.file(rest),
            "run" => self.run(rest),
            "answer" => self.answer(rest),
            "out" => self.out(rest),
            "begins" => self.begins(rest),
            "none" => self.none(rest),
            "each" => self.each_call(rest),
            "opens" => self.opens(rest),
            "least" => self.least(rest),
            "state" => self.state(rest),
            _ => Err(Fault::Line("no such word")),
        }
    }

    fn name(&self, word: &str) -> Result<Name, Fault> {
        if word.is_empty() {
            return Err(Fault::Line("no name"));
        }
        Ok(Name::new(self.alloc, word)?)
    }

    fn pieces(&mut self, rest: &str) -> Result<(), Fault> {
        for word in rest.split_whitespace() {
            let piece = number(word)?;
            self.case
                .pieces
                .push(usize::try_from(piece).unwrap_or(usize::MAX))?;
        }
        Ok(())
    }

    // `call N fails`
    fn call(&mut self, rest: &str) -> Result<(), Fault> {
        let word = rest.strip_suffix(" fails");
        self.case.call = number(word.ok_or(Fault::Line("no number of a call"))?)?;
        Ok(())
    }

    // `file NAME`, `file NAME first N`
    fn file(&mut self, rest: &str) -> Result<(), Fault> {
        let (word, most) = match rest.split_once(" first ") {
            Some((word, most)) => (word, usize::try_from(number(most)?).unwrap_or(usize::MAX)),
            None => (rest, usize::MAX),
        };
        self.owner = Owner::Put(self.name(word)?, most);
        Ok(())
    }

    fn run(&mut self, rest: &str) -> Result<(), Fault> {
        if self.unanswered {
            return Err(Fault::Line("no answer before"));
        }
        let mut words = Vec::new(self.alloc);
        for word in rest.split_whitespace() {
            words.push(Name::new(self.alloc, word)?)?;
        }
        self.unanswered = true;
        self.has_run = true;
        self.step(Step::Run(words))
    }

    fn answer(&mut self, rest: &str) -> Result<(), Fault> {
        if !self.unanswered {
            return Err(Fault::Line("no run before"));
        }
        self.unanswered = false;
        let line = String::from_str(self.alloc, rest)?;
        self.step(Step::Answer(line))
    }

    // `out NAME`, `out NAME as OTHER`
    fn out(&mut self, rest: &str) -> Result<(), Fault> {
        if let Some((word, other)) = rest.split_once(" as ") {
            let step = Step::Same(self.name(word)?, self.name(other)?);
            return self.step(step);
        }
        self.owner = Owner::Output(self.name(rest)?);
        Ok(())
    }

    fn begins(&mut self, rest: &str) -> Result<(), Fault> {
        self.owner = Owner::Begins(self.name(rest)?);
        Ok(())
    }

    fn none(&mut self, rest: &str) -> Result<(), Fault> {
        for word in rest.split_whitespace() {
            let step = Step::Absent(self.name(word)?);
            self.step(step)?;
        }
        Ok(())
    }

    // `each call fails`
    fn each_call(&mut self, rest: &str) -> Result<(), Fault> {
        if rest != "call fails" {
            return Err(Fault::Line("no such word"));
        }
        self.case.each_call = Some(EachCall {
            opens: 0,
            least: [0; 3],
            states: Vec::new(self.alloc),
        });
        Ok(())
    }

    // What `each call fails` opened.
    fn faults(&mut self) -> Result<&mut EachCall, Fault> {
        match &mut self.case.each_call {
            Some(each_call) => Ok(each_call),
            None => Err(Fault::Line("no each call fails before")),
        }
    }

    fn opens(&mut self, rest: &str) -> Result<(), Fault> {
        self.faults()?.opens = number(rest)?;
        Ok(())
    }

    // `least UNOPENED READS WRITES`
    fn least(&mut self, rest: &str) -> Result<(), Fault> {
        let faults = self.faults()?;
        for (least, word) in faults.least.iter_mut().zip(rest.split_whitespace()) {
            *least = number(word)?;
        }
        Ok(())
    }

    // `state`, `state from N`, `state reached`
    fn state(&mut self, rest: &str) -> Result<(), Fault> {
        let outputs = Vec::new(self.alloc);
        let from = match rest.strip_prefix("from ") {
            Some(word) => number(word)?,
            None => 0,
        };
        let faults = self.faults()?;
        faults.states.push(State {
            from,
            is_reached: rest == "reached",
            outputs,
        })?;
        Ok(())
    }
}

/// The number of these digits.
pub(crate) fn number(word: &str) -> Result<u64, Fault> {
    word.trim()
        .parse::<u64>()
        .map_err(|_| Fault::Line("no number"))
}
