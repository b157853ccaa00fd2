// Writing whole texts.
ghost use Rattle.std.specs.Prelude.{◌≡◌, ◌-◌, ◌^◌, ◌<◌, option_map, OnOk, OnErr, IfSome};
ghost use Rattle.tda_io.specs.Outside.{IsNew, CountsOut};
ghost use Rattle.tda_tool.specs.Outcome.{whole, with_last};
ghost use Rattle.tda_tool.specs.Output.{LeavesPart};

use tda_io::{OutFault, Outbox};

/// Writes a text under a new name, and ends it.
pub(crate) fn write_whole<O: Outbox>(
    outbox: &mut O,
    name: &str,
    text: &[u8],
) -> Result<(), OutFault>
    requires new { IfSome (O.told outbox.old) (IsNew name.now) }
    requires room { O.faults outbox.old < 2 ^ 64 - 1 }
    ensures ok { OnOk result (O.told outbox.new ≡ option_map (with_last (whole name.now text.now)) (O.told outbox.old)) }
    ensures err { OnErr result (LeavesPart name.now text.now (O.told outbox.old) (O.told outbox.new)) }
    ensures cause { CountsOut result (O.faults outbox.old) (O.faults outbox.new) }
{
    outbox.begin(name)?;
    outbox.put(name, text)?;
    outbox.end(name)
}
