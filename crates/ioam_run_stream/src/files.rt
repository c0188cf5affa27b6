//! The files that the words of a command over one capture name.
ghost use Rattle.std.specs.Prelude.{◌≡◌, ◌≤◌, length};
ghost use Rattle.ioam_run_stream.specs.Promise.{all_names, capture_names};

use ioam_base::name::Name;
use std::marker::Model;

/// The names of the files of a command over one capture: IN, and its outputs in their order.
#[derive(Drop)]
pub struct CaptureFiles<'a> {
    // all of them, in the order of the words
    names: &'a [Name],
}

impl<'a> Model for CaptureFiles<'a> {
    ghost use Rattle.std.specs.Prelude.{◌≤◌, drop, length};
    ghost use Rattle.ioam_desk_outputs.specs.Names.{name_at};
    ghost use Rattle.ioam_run_stream.specs.Promise.{CaptureNames};

    ghost Value = { CaptureNames };

    ghost view = { λ files. record { input = name_at files.names.now 0; outputs = drop 1 files.names.now } };

    ghost invariant = { λ files. 1 ≤ length files.names.now };
}

impl<'a> CaptureFiles<'a> {
    /// The files that these words name: behind the command's own name stand IN and the outputs.
    pub fn of(words: &'a [Name]) -> CaptureFiles<'a>
        requires { 2 ≤ length words.now }
        ensures { result ≡ capture_names words.now }
    {
        CaptureFiles { names: &words[1..] }
    }

    /// All names, in the order in which equal ones are looked for.
    pub(crate) fn all(&self) -> &'a [Name]
        ensures { result.now ≡ all_names self.now }
    {
        self.names
    }

    /// The name of IN.
    pub(crate) fn input(&self) -> &'a Name
        ensures { result.now ≡ self.now.input }
    {
        &self.names[0]
    }

    /// The names of the outputs.
    pub(crate) fn outputs(&self) -> &'a [Name]
        ensures { result.now ≡ self.now.outputs }
    {
        &self.names[1..]
    }
}
