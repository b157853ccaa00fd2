// What the program answers.
use std::alloc::Global;
use tda_inputs::{File, Refusal};
use tda_io::NoMemory;

/// Why the program ends, where memory suffices and all can be written.
#[derive(Clone, Copy, Debug, PartialEq, Eq)]
pub(crate) enum Cause {
    /// All is done that the words ask for.
    Done,
    /// The words are no command.
    Words,
    /// A file isn't accepted.
    Refused(File),
    /// The read of a file failed.
    Read(File),
    /// The words end before the last draw.
    OutOfWords,
    /// A magnitude passes its limit in a draw.
    TooLarge,
    /// A condition of the audit fails.
    Against,
}

impl Cause {
    ghost use Rattle.std.specs.Prelude.{◌≡◌};
    ghost use Rattle.tda_tool.specs.Answer.{status_by};

    /// The status that the program ends with.
    pub(crate) fn status(self) -> u8
        ensures { result ≡ status_by self }
    {
        match self {
            Cause::Done => 0,
            Cause::Against => 1,
            Cause::Words => 2,
            Cause::Refused(_) => 3,
            Cause::Read(_) => 4,
            Cause::OutOfWords => 6,
            Cause::TooLarge => 7,
        }
    }
}

/// A file that the command writes: its name in the command, and all its bytes.
#[derive(Debug, Drop)]
pub(crate) struct Output {
    pub(crate) name: &'static str,
    pub(crate) text: Vec<u8>,
}

impl Output {
    ghost use Rattle.std.specs.Prelude.{◌≡◌};

    /// The output of this name, with this text.
    pub(crate) fn new(name: &'static str, text: Vec<u8>) -> Output
        ensures name { result.name.now ≡ name.entry.now }
        ensures text { result.text ≡ text }
    {
        Output { name, text }
    }
}

/// What the program answers, where memory suffices and all can be written: the outputs in their order, and the report.
#[derive(Debug, Drop)]
pub(crate) struct Answer {
    pub(crate) cause: Cause,
    pub(crate) outputs: Vec<Output>,
    pub(crate) report: Vec<u8>,
}

impl Answer {
    ghost use Rattle.std.specs.Prelude.{◌≡◌, [], IfOk};
    ghost use Rattle.tda_tool.specs.Ending.{words_ending};
    ghost use Rattle.tda_inputs.specs.Ending.{read_ending, refused_ending};
    ghost use Rattle.tda_inputs.specs.Files.{name_of};
    ghost use Rattle.tda_tool.specs.Answer.{ReportsAlone};

    /// A report alone.
    pub(crate) fn alone(alloc: Global, cause: Cause, report: Vec<u8>) -> Answer
        ensures cause { result.cause ≡ cause }
        ensures outputs { result.outputs.items ≡ [] }
        ensures report { result.report ≡ report }
    {
        Answer {
            cause,
            outputs: Vec::new(alloc),
            report,
        }
    }

    /// That the words are no command.
    pub(crate) fn words(alloc: Global) -> Result<Answer, NoMemory>
        ensures cause { IfOk result (λ a. a.cause ≡ Cause.Words) }
        ensures alone { IfOk result (ReportsAlone words_ending) }
    {
        let report = format!(in alloc; "words\n")?.into_bytes();
        Ok(Answer::alone(alloc, Cause::Words, report))
    }

    /// That the read of a file failed.
    pub(crate) fn read(alloc: Global, file: File) -> Result<Answer, NoMemory>
        ensures cause { IfOk result (λ a. a.cause ≡ Cause.Read file) }
        ensures alone { IfOk result (ReportsAlone (read_ending (name_of file))) }
    {
        let name = file.name();
        let report = format!(in alloc; "read {name}\n")?.into_bytes();
        Ok(Answer::alone(alloc, Cause::Read(file), report))
    }

    /// That a file isn't accepted.
    pub(crate) fn refused(alloc: Global, refusal: &Refusal) -> Result<Answer, NoMemory>
        ensures cause { IfOk result (λ a. a.cause ≡ Cause.Refused refusal.now.file) }
        ensures alone { IfOk result (ReportsAlone (refused_ending (name_of refusal.now.file) refusal.now.fault.items)) }
    {
        let report = refusal.line(alloc)?;
        Ok(Answer::alone(alloc, Cause::Refused(refusal.file), report))
    }
}
