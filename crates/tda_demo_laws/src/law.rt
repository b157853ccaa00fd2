// The laws of the demo.
ghost use Rattle.std.specs.Prelude.{◌<◌, ◌≤◌, ◌^◌};
ghost use Rattle.tda_demo_laws.specs.Laws.{AreAccepted, AreShort, IsSized};

/// The law that, for each number below 2^32 and each size from 1 to 64, the readers accept the demo's files, and that its
/// records agree with its facilities. It does nothing.
pub fn demo_is_accepted(number: u64, size: u32)
    requires number { number < 2 ^ 32 }
    requires some { 1 ≤ size }
    requires few { size ≤ 64 }
    ensures accepted { AreAccepted number size }
    ensures short { AreShort number size }
    ensures sized { IsSized size }
{}
