//! The forms of a command line.
ghost use Rattle.std.specs.Prelude.{◌≡◌, ◌↔◌, ℕ, IsTrue, MatchOption, codes, find, length, map};
ghost use Rattle.std.specs.Option.{option_copied};
ghost use Rattle.std.specs.Str.{bytes_eq};
ghost use Rattle.ioam_words.specs.Words.{IsBulk, IsCount, IsForm, IsNoBulk, IsNoForm, IsSeed, IsWorkers, Spells, count_asked, forms, row_of};

use crate::format::format_of;
use ioam_base::digits::decimal_below;
use ioam_base::name::Name;
use ioam_topo::Format;

/// What a command line asks for.
#[derive(Clone, Copy, Debug, PartialEq, Eq)]
pub enum Command {
    /// `filter IN OUT REPORT`
    Filter,
    /// `leaks IN OUT REPORT`
    Leaks,
    /// `paths IN REPORT`
    Paths,
    /// `delays FORMAT IN REPORT`
    Delays { format: Format },
    /// `show IN REPORT`
    Show,
    /// `save IN OUT`
    Save,
    /// `node DOMAIN READINGS NODE LINK IN OUT REPORT EXPORTS`
    Node,
    /// `audit DOMAIN NODE LINK BEFORE AFTER REPORT`
    Audit,
    /// `run DOMAIN READINGS WORKERS REPORT EXPORTS`, with so many workers, 1 to 64.
    Run { workers: u32 },
    /// `bulk SEED COUNT WORKERS REPORT`: any seed of 64 bits, 1 to 1,000,000 arrivals, and 1 to 64 workers.
    Bulk { seed: u64, count: u32, workers: u32 },
    /// `collect EXPORTS REPORT`
    Collect,
    /// `ipfix EXPORTS OUT`
    Ipfix,
    /// `records IN OUT`
    Records,
    /// `part EXPORTS PART`
    Part,
    /// `merge ONE TWO PART`
    Merge,
    /// `parts PART REPORT`
    Parts,
}

/// What the words after a command's name spell.
#[derive(Clone, Copy)]
pub(crate) enum Asks {
    /// Names alone.
    Names(Command),
    /// A format for `delays`, and names.
    Format,
    /// A number of workers for `run`, and names.
    Workers,
    /// A generated load for `bulk`, and a name.
    Load,
}

/// The form of a command line: the command's name, what the other words stand for, how many words
/// there are with the name, and what they spell.
#[derive(Clone, Copy)]
pub(crate) struct Form(
    pub(crate) &'static str,
    pub(crate) &'static str,
    usize,
    Asks,
);

// What `forms` hands out.
static FORMS: [Form; 16] = [
    Form("filter", "IN OUT REPORT", 4, Asks::Names(Command::Filter)),
    Form("leaks", "IN OUT REPORT", 4, Asks::Names(Command::Leaks)),
    Form("paths", "IN REPORT", 3, Asks::Names(Command::Paths)),
    Form("delays", "FORMAT IN REPORT", 4, Asks::Format),
    Form("show", "IN REPORT", 3, Asks::Names(Command::Show)),
    Form("save", "IN OUT", 3, Asks::Names(Command::Save)),
    Form(
        "node",
        "DOMAIN READINGS NODE LINK IN OUT REPORT EXPORTS",
        9,
        Asks::Names(Command::Node),
    ),
    Form(
        "audit",
        "DOMAIN NODE LINK BEFORE AFTER REPORT",
        7,
        Asks::Names(Command::Audit),
    ),
    Form(
        "run",
        "DOMAIN READINGS WORKERS REPORT EXPORTS",
        6,
        Asks::Workers,
    ),
    Form("bulk", "SEED COUNT WORKERS REPORT", 5, Asks::Load),
    Form(
        "collect",
        "EXPORTS REPORT",
        3,
        Asks::Names(Command::Collect),
    ),
    Form("ipfix", "EXPORTS OUT", 3, Asks::Names(Command::Ipfix)),
    Form("records", "IN OUT", 3, Asks::Names(Command::Records)),
    Form("part", "EXPORTS PART", 3, Asks::Names(Command::Part)),
    Form("merge", "ONE TWO PART", 4, Asks::Names(Command::Merge)),
    Form("parts", "PART REPORT", 3, Asks::Names(Command::Parts)),
];

/// The forms of all commands, in the order in which usage prints them.
#[tactic(auto, unfolding(crate::specs::Words::forms))]
pub(crate) fn forms() -> &'static [Form]
    ensures { map row_of result.now ≡ forms }
{
    &FORMS
}

/// The form of a command's name among these.
pub(crate) fn form_of<'a>(name: &str, forms: &'a [Form]) -> Option<&'a Form>
    ensures { option_copied result ≡ find (λ form. bytes_eq form.0.now name.now) forms.now }
{
    forms.iter().find(|form| form.0 == name)
}

// The number of workers that a word spells.
fn workers_of(word: &Name) -> Option<u32>
    ensures { MatchOption result ((workers : ℕ) → IsWorkers workers word.now → ⊥) (λ workers. IsWorkers workers word.now) }
{
    match decimal_below(word.text().as_bytes(), 65) {
        Some(0) | None => None,
        Some(workers) => Some(workers as u32),
    }
}

// The number of arrivals that a word spells.
fn count_of(word: &Name) -> Option<u32>
    ensures { MatchOption result ((count : ℕ) → IsCount count word.now → ⊥) (λ count. IsCount count word.now) }
{
    match decimal_below(word.text().as_bytes(), 1_000_001) {
        Some(0) | None => None,
        Some(count) => Some(count as u32),
    }
}

// Whether a word spells the greatest seed.
fn is_greatest(word: &Name) -> bool
    ensures { IsTrue result ↔ (word.now ≡ codes "18446744073709551615") }
{
    word.text() == "18446744073709551615"
}

// The seed that a word spells.
fn seed_of(word: &Name) -> Option<u64>
    ensures { MatchOption result ((seed : ℕ) → IsSeed seed word.now → ⊥) (λ seed. IsSeed seed word.now) }
{
    // the limit itself can't be read below it
    if is_greatest(word) {
        return Some(u64::MAX);
    }
    decimal_below(word.text().as_bytes(), u64::MAX)
}

// The generated load that three words spell.
fn bulk_of(seed: &Name, count: &Name, workers: &Name) -> Option<Command>
    ensures { MatchOption result (IsNoBulk seed.now count.now workers.now) (λ command. IsBulk seed.now count.now workers.now command) }
{
    match (seed_of(seed), count_of(count), workers_of(workers)) {
        (Some(seed), Some(count), Some(workers)) => Some(Command::Bulk {
            seed,
            count,
            workers,
        }),
        _ => None,
    }
}

// The command that the words of a form spell.
fn command_of(asks: Asks, words: &[Name]) -> Option<Command>
    requires { length words.now ≡ count_asked asks }
    ensures { MatchOption result ((command : Command) → Spells asks words.now command → ⊥) (λ command. Spells asks words.now command) }
{
    match asks {
        Asks::Names(command) => Some(command),
        Asks::Format => match format_of(&words[1]) {
            Some(format) => Some(Command::Delays { format }),
            None => None,
        },
        Asks::Workers => match workers_of(&words[3]) {
            Some(workers) => Some(Command::Run { workers }),
            None => None,
        },
        Asks::Load => bulk_of(&words[1], &words[2], &words[3]),
    }
}

/// The command that the words ask for: none if they are of no command's form.
pub fn parse(words: &[Name]) -> Option<Command>
    ensures { MatchOption result (IsNoForm words.now) (λ command. IsForm command words.now) }
{
    let name = words.first()?;
    let form = form_of(name.text(), forms())?;
    if words.len() != form.2 {
        return None;
    }
    command_of(form.3, words)
}
