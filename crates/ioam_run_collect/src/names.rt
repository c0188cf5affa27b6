//! The files that the words of the command name.
ghost use Rattle.std.specs.Prelude.{◌≡◌, length};
ghost use Rattle.ioam_run_collect.specs.Promise.{collect_names};

use ioam_base::name::Name;
use std::marker::Model;

/// The names of the files of `collect EXPORTS REPORT`.
#[derive(Drop)]
pub struct CollectFiles<'a> {
    pub(crate) exports: &'a Name,
    pub(crate) report: &'a Name,
}

impl<'a> Model for CollectFiles<'a> {
    ghost use Rattle.ioam_run_collect.specs.Promise.{CollectNames};

    ghost Value = { CollectNames };

    ghost view = { λ files. record { exports = files.exports.now; report = files.report.now } };
}

impl<'a> CollectFiles<'a> {
    /// The files that these words name, behind the command's own name.
    pub fn of(words: &'a [Name]) -> CollectFiles<'a>
        requires { length words.now ≡ 3 }
        ensures { result ≡ collect_names words.now }
    {
        CollectFiles {
            exports: &words[1],
            report: &words[2],
        }
    }
}
