//! A case: what stands on the desk, what is run over it, and what has to come of it.
use ioam_base::name::Name;

/// A name and octets: a file that is put on the desk, an output, or a definition.
#[derive(Drop)]
pub(crate) struct File {
    pub(crate) name: Name,
    pub(crate) octets: Vec<u8>,
}

/// One step of a case.
#[derive(Drop)]
pub(crate) enum Step {
    /// Puts a file on the desk.
    Put(File),
    /// Runs `ioam` with these words.
    Run(Vec<Name>),
    /// The line of the last run is this.
    Answer(String),
    /// The output holds exactly these octets.
    Output(File),
    /// The output begins with these octets.
    Begins(File),
    /// The output and another one hold the same octets.
    Same(Name, Name),
    /// No file has this name.
    Absent(Name),
}

/// What a failed read may leave: the outputs after the records that are whole among the first octets.
#[derive(Drop)]
pub(crate) struct State {
    /// How many octets of the input have to be read for it.
    pub(crate) from: u64,
    /// Whether some failed read has to leave it.
    pub(crate) is_reached: bool,
    pub(crate) outputs: Vec<File>,
}

/// What has to come of runs each of whose calls fails once.
#[derive(Drop)]
pub(crate) struct EachCall {
    /// How many calls open files before the first read of the input. 0: the offsets of states aren't looked at.
    pub(crate) opens: u64,
    /// The least number of failed reads that leave no output, of those that leave some, and of failed writes.
    pub(crate) least: [u64; 3],
    pub(crate) states: Vec<State>,
}

/// A case.
#[derive(Drop)]
pub(crate) struct Case {
    /// The most octets of one read or write, for each time that the case is played.
    pub(crate) pieces: Vec<usize>,
    /// The call that fails, from 1. 0: none.
    pub(crate) call: u64,
    pub(crate) steps: Vec<Step>,
    pub(crate) each_call: Option<EachCall>,
}
