//! The files that the words of the commands name.
ghost use Rattle.std.specs.Prelude.{◌≡◌, length};
ghost use Rattle.ioam_run_part.specs.Files.{merge_names, part_names, parts_names};

use ioam_base::name::Name;
use std::marker::Model;

/// The names of the files of `part EXPORTS PART`.
#[derive(Drop)]
pub struct PartFiles<'a> {
    pub(crate) exports: &'a Name,
    pub(crate) part: &'a Name,
}

impl<'a> Model for PartFiles<'a> {
    ghost use Rattle.ioam_run_part.specs.Files.{PartNames};

    ghost Value = { PartNames };

    ghost view = { λ files. record { exports = files.exports.now; part = files.part.now } };
}

impl<'a> PartFiles<'a> {
    /// The files that these words name, behind the command's own name.
    pub fn of(words: &'a [Name]) -> PartFiles<'a>
        requires { length words.now ≡ 3 }
        ensures { result ≡ part_names words.now }
    {
        PartFiles {
            exports: &words[1],
            part: &words[2],
        }
    }
}

/// The names of the files of `merge ONE TWO PART`.
#[derive(Drop)]
pub struct MergeFiles<'a> {
    pub(crate) one: &'a Name,
    pub(crate) two: &'a Name,
    pub(crate) part: &'a Name,
}

impl<'a> Model for MergeFiles<'a> {
    ghost use Rattle.ioam_run_part.specs.Files.{MergeNames};

    ghost Value = { MergeNames };

    ghost view = { λ files. record { one = files.one.now; two = files.two.now; part = files.part.now } };
}

impl<'a> MergeFiles<'a> {
    /// The files that these words name, behind the command's own name.
    pub fn of(words: &'a [Name]) -> MergeFiles<'a>
        requires { length words.now ≡ 4 }
        ensures { result ≡ merge_names words.now }
    {
        MergeFiles {
            one: &words[1],
            two: &words[2],
            part: &words[3],
        }
    }
}

/// The names of the files of `parts PART REPORT`.
#[derive(Drop)]
pub struct PartsFiles<'a> {
    pub(crate) part: &'a Name,
    pub(crate) report: &'a Name,
}

impl<'a> Model for PartsFiles<'a> {
    ghost use Rattle.ioam_run_part.specs.Files.{PartsNames};

    ghost Value = { PartsNames };

    ghost view = { λ files. record { part = files.part.now; report = files.report.now } };
}

impl<'a> PartsFiles<'a> {
    /// The files that these words name, behind the command's own name.
    pub fn of(words: &'a [Name]) -> PartsFiles<'a>
        requires { length words.now ≡ 3 }
        ensures { result ≡ parts_names words.now }
    {
        PartsFiles {
            part: &words[1],
            report: &words[2],
        }
    }
}
