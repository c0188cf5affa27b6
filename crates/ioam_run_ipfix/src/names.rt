//! The files that the words of the two commands name.
ghost use Rattle.std.specs.Prelude.{◌≡◌, length};
ghost use Rattle.ioam_run_ipfix.specs.Promise.{ipfix_names, records_names};

use ioam_base::name::Name;
use std::marker::Model;

/// The names of the files of `ipfix EXPORTS OUT`.
#[derive(Drop)]
pub struct IpfixFiles<'a> {
    pub(crate) exports: &'a Name,
    pub(crate) out: &'a Name,
}

impl<'a> Model for IpfixFiles<'a> {
    ghost use Rattle.ioam_run_ipfix.specs.Promise.{IpfixNames};

    ghost Value = { IpfixNames };

    ghost view = { λ files. record { exports = files.exports.now; out = files.out.now } };
}

impl<'a> IpfixFiles<'a> {
    /// The files that these words name, behind the command's own name.
    pub fn of(words: &'a [Name]) -> IpfixFiles<'a>
        requires { length words.now ≡ 3 }
        ensures { result ≡ ipfix_names words.now }
    {
        IpfixFiles {
            exports: &words[1],
            out: &words[2],
        }
    }
}

/// The names of the files of `records IN OUT`.
#[derive(Drop)]
pub struct RecordsFiles<'a> {
    pub(crate) input: &'a Name,
    pub(crate) out: &'a Name,
}

impl<'a> Model for RecordsFiles<'a> {
    ghost use Rattle.ioam_run_ipfix.specs.Promise.{RecordsNames};

    ghost Value = { RecordsNames };

    ghost view = { λ files. record { input = files.input.now; out = files.out.now } };
}

impl<'a> RecordsFiles<'a> {
    /// The files that these words name, behind the command's own name.
    pub fn of(words: &'a [Name]) -> RecordsFiles<'a>
        requires { length words.now ≡ 3 }
        ensures { result ≡ records_names words.now }
    {
        RecordsFiles {
            input: &words[1],
            out: &words[2],
        }
    }
}
