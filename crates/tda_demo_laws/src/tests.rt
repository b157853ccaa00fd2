// The numbers of the demo's units and places, beside those that its definition states.
ghost use Rattle.std.specs.Prelude.{◌<◌, ◌≤◌};

use crate::demo_inputs;
use std::alloc::Global;
use std::process::Abort;
use std::test::Fail;
use tda_places::count;

fn has_numbers(
    rt: &impl Abort,
    alloc: Global,
    size: u32,
    units: u32,
    places: u64,
) -> Result<(), Fail>
    requires some { 1 ≤ size }
    requires few { size ≤ 64 }
{
    let inputs = demo_inputs(alloc, 1, size)?;
    assert_eq!(rt; inputs.spine.units(), units);
    assert_eq!(rt; count(&inputs.schema, &inputs.spine), places);
    assert_eq!(rt; inputs.place, 1_099_511_627_776);
    Ok(())
}

#[test]
fn has_units_and_places(rt: HostRuntime) -> Result<(), Fail> {
    has_numbers(&rt, rt.alloc(), 1, 57, 603)?;
    has_numbers(&rt, rt.alloc(), 2, 81, 867)?;
    has_numbers(&rt, rt.alloc(), 8, 225, 2_451)
}
