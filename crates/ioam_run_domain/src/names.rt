//! The files that the words of the command name.
ghost use Rattle.std.specs.Prelude.{◌≡◌, length};
ghost use Rattle.ioam_run_domain.specs.Promise.{run_names};

use ioam_base::name::Name;
use std::marker::Model;

/// The names of the files of `run DOMAIN READINGS WORKERS REPORT EXPORTS`; those of its captures stand in DOMAIN.
#[derive(Drop)]
pub struct RunFiles<'a> {
    pub(crate) domain: &'a Name,
    pub(crate) readings: &'a Name,
    pub(crate) report: &'a Name,
    pub(crate) exports: &'a Name,
}

impl<'a> Model for RunFiles<'a> {
    ghost use Rattle.ioam_run_domain.specs.Promise.{RunNames};

    ghost Value = { RunNames };

    ghost view = { λ files. record {
      domain = files.domain.now;
      readings = files.readings.now;
      report = files.report.now;
      exports = files.exports.now;
    } };
}

impl<'a> RunFiles<'a> {
    /// The files that these words name, behind the command's own name.
    pub fn of(words: &'a [Name]) -> RunFiles<'a>
        requires { length words.now ≡ 6 }
        ensures { result ≡ run_names words.now }
    {
        RunFiles {
            domain: &words[1],
            readings: &words[2],
            report: &words[4],
            exports: &words[5],
        }
    }
}
