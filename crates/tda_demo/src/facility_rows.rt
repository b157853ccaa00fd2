// Writes the demo's facilities.
ghost use Rattle.std.specs.Prelude.{◌≡◌, ◌≤◌, ◌*◌, ◌++◌, ◌∷◌, [], codes, if◌then◌else◌, IfOk, OnOk};
ghost use Rattle.std.specs.List.{flat_map};
ghost use Rattle.tda_io.specs.Texts.{IsPlain, row_text};
ghost use Rattle.tda_demo.specs.BlockCodes.{leaf_code};
ghost use Rattle.tda_demo.specs.Demo.{facilities_text};
ghost use Rattle.tda_demo.specs.DemoSpine.{branches};
ghost use Rattle.tda_demo.specs.Facilities.{block_facility_rows, facility_rows};
ghost use Rattle.tda_demo.specs.Schema.{schema};

use crate::codes::block_code;
use std::alloc::Global;
use tda_io::{NoMemory, push_field};

// Appends the row of one facility of a kind in a block, where it stands there.
fn push_facility(out: &mut Vec<u8>, code: &[u8], kind: &[u8], stands: bool) -> Result<(), NoMemory>
    requires code { IsPlain code.now }
    requires kind { IsPlain kind.now }
    ensures { OnOk result (out.new.items ≡ out.old.items ++ flat_map row_text (if stands then (code.now ∷ kind.now ∷ codes "1" ∷ []) ∷ [] else [])) }
{
    if !stands {
        return Ok(());
    }
    push_field(out, code, false)?;
    push_field(out, kind, false)?;
    push_field(out, b"1", true)
}

// Appends the rows of a block's facilities: every third block has a dormitory, every fifth a prison.
fn push_block(out: &mut Vec<u8>, code: &[u8], block: u32) -> Result<(), NoMemory>
    requires { IsPlain code.now }
    ensures { OnOk result (out.new.items ≡ out.old.items ++ flat_map row_text (block_facility_rows schema code.now block)) }
{
    push_facility(out, code, b"dorm", block % 3 == 0)?;
    push_facility(out, code, b"prison", block % 5 == 0)
}

// Appends the rows of all blocks' facilities.
fn push_all(alloc: Global, out: &mut Vec<u8>, size: u32) -> Result<(), NoMemory>
    requires some { 1 ≤ size }
    requires few { size ≤ 64 }
    ensures { OnOk result (out.new.items ≡ out.old.items ++ flat_map row_text (facility_rows schema (leaf_code (branches size) []) (24 * size))) }
{
    for block in 0..24 * size {
        let code = block_code(alloc, size, block)?;
        push_block(out, &code, block)?;
    }
    Ok(())
}

// The file of the facilities.
pub(crate) fn facilities_file(alloc: Global, size: u32) -> Result<Vec<u8>, NoMemory>
    requires some { 1 ≤ size }
    requires few { size ≤ 64 }
    ensures { IfOk result (λ text. text.items ≡ facilities_text size) }
{
    let mut text = Vec::new(alloc);
    text.extend_from_slice(b"block,kind,count\n")?;
    push_all(alloc, &mut text, size)?;
    Ok(text)
}
