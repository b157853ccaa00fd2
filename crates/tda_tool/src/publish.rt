// The outputs and the report.
ghost use Rattle.std.specs.Prelude.{◌≡◌, ◌-◌, ◌^◌, ◌<◌, [], map, string_bytes, IfSome, OnOk};
ghost use Rattle.tda_io.specs.Outside.{IsNew, CountsOut};
ghost use Rattle.tda_command.specs.Words.{dash};
ghost use Rattle.tda_tool.specs.Outcome.{IsEmpty, Leaves, BeginsPrefix};
ghost use Rattle.tda_tool.specs.Output.{BeginsFirst, CountsFault};
ghost use Rattle.tda_tool.specs.Answer.{WritesNames, outputs_of, targets_of, files_of, target_of};

use crate::answer::{Answer, Output};
use crate::output::write_whole;
use tda_command::value_named;
use tda_io::{OutFault, Outbox};

/// Tells that memory ran out, as far as that can be told.
pub(crate) fn tell_memory<O: Outbox>(outbox: &mut O) -> OutFault
    requires new { IfSome (O.told outbox.old) (IsNew dash) }
    requires room { O.faults outbox.old < 2 ^ 64 - 1 }
    ensures begun { BeginsPrefix [] (O.told outbox.old) (O.told outbox.new) }
    ensures cause { CountsFault result (O.faults outbox.old) (O.faults outbox.new) }
{
    match write_whole(outbox, "-", b"memory\n") {
        Ok(()) | Err(OutFault::NoMemory) => OutFault::NoMemory,
        Err(OutFault::Failed) => OutFault::Failed,
    }
}

// Where the command has an output.
fn target_of<'a>(words: &'a [String], output: &Output) -> &'a str
    ensures { result.now ≡ target_of (map string_bytes words.now) output.now }
{
    value_named(words, output.name)
}

// Writes the outputs of an answer, each whole.
fn write_outputs<O: Outbox>(
    words: &[String],
    answer: &Answer,
    outbox: &mut O,
) -> Result<(), OutFault>
    requires names { WritesNames (map string_bytes words.now) answer.now }
    requires empty { IfSome (O.told outbox.old) IsEmpty }
    requires room { O.faults outbox.old < 2 ^ 64 - 1 }
    ensures written { OnOk result (Leaves (outputs_of (map string_bytes words.now) answer.now) (O.told outbox.old) (O.told outbox.new)) }
    ensures begun { BeginsFirst (targets_of (map string_bytes words.now) answer.now) (O.told outbox.old) (O.told outbox.new) }
    ensures new { IfSome (O.told outbox.new) (IsNew dash) }
    ensures cause { CountsOut result (O.faults outbox.old) (O.faults outbox.new) }
{
    for output in &answer.outputs {
        write_whole(outbox, target_of(words, output), &output.text)?;
    }
    Ok(())
}

/// Writes the outputs of an answer, each whole, and then the report.
pub(crate) fn publish<O: Outbox>(
    words: &[String],
    answer: &Answer,
    outbox: &mut O,
) -> Result<(), OutFault>
    requires names { WritesNames (map string_bytes words.now) answer.now }
    requires empty { IfSome (O.told outbox.old) IsEmpty }
    requires room { O.faults outbox.old < 2 ^ 64 - 1 }
    ensures written { OnOk result (Leaves (files_of (map string_bytes words.now) answer.now) (O.told outbox.old) (O.told outbox.new)) }
    ensures begun { BeginsPrefix (targets_of (map string_bytes words.now) answer.now) (O.told outbox.old) (O.told outbox.new) }
    ensures cause { CountsOut result (O.faults outbox.old) (O.faults outbox.new) }
{
    match write_outputs(words, answer, outbox) {
        Ok(()) => write_whole(outbox, "-", &answer.report),
        Err(OutFault::NoMemory) => Err(tell_memory(outbox)),
        Err(OutFault::Failed) => Err(OutFault::Failed),
    }
}
