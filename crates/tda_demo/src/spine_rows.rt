// Writes the demo's spine in preorder: each unit's row, and after it the rows of the units below it.
ghost use Rattle.std.specs.Prelude.{◌≡◌, ◌≤◌, ◌<◌, ◌^◌, ◌++◌, ◌∷◌, [], codes, IfOk, OnOk};
ghost use Rattle.std.specs.List.{flat_map};
ghost use Rattle.tda_io.specs.Texts.{IsPlain, row_text};
ghost use Rattle.tda_demo.specs.Demo.{spine_text};
ghost use Rattle.tda_demo.specs.DemoSpine.{branches, counties, tracts, blocks};
ghost use Rattle.tda_demo.specs.PreorderRows.{rows_below};
ghost use Rattle.tda_demo.specs.Schema.{schema};

use crate::codes::child_code;
use std::alloc::Global;
use tda_io::{NoMemory, push_field};

// Appends the row of a unit below the nation.
fn push_unit(out: &mut Vec<u8>, code: &[u8], level: &[u8], parent: &[u8]) -> Result<(), NoMemory>
    requires code { IsPlain code.now }
    requires level { IsPlain level.now }
    requires parent { IsPlain parent.now }
    ensures { OnOk result (out.new.items ≡ out.old.items ++ row_text (code.now ∷ level.now ∷ parent.now ∷ [])) }
{
    push_field(out, code, false)?;
    push_field(out, level, false)?;
    push_field(out, parent, true)
}

// Appends the rows of the blocks of a tract.
fn push_blocks(alloc: Global, out: &mut Vec<u8>, tract: &[u8], size: u32) -> Result<(), NoMemory>
    requires plain { IsPlain tract.now }
    requires few { size ≤ 64 }
    ensures { OnOk result (out.new.items ≡ out.old.items ++ flat_map row_text (rows_below schema (blocks size ∷ []) 3 tract.now tract.now)) }
{
    for k in 0..size {
        let code = child_code(alloc, tract, b'B', k + 1)?;
        push_unit(out, &code, b"block", tract)?;
    }
    Ok(())
}

// Appends the rows of the tracts of a county, each with those of its blocks.
fn push_tracts(alloc: Global, out: &mut Vec<u8>, county: &[u8], size: u32) -> Result<(), NoMemory>
    requires plain { IsPlain county.now }
    requires few { size ≤ 64 }
    ensures { OnOk result (out.new.items ≡ out.old.items ++ flat_map row_text (rows_below schema (tracts ∷ blocks size ∷ []) 2 county.now county.now)) }
{
    for k in 0..4u32 {
        let code = child_code(alloc, county, b'T', k + 1)?;
        push_unit(out, &code, b"tract", county)?;
        push_blocks(alloc, out, &code, size)?;
    }
    Ok(())
}

// Appends the rows of the counties of a state, each with those of its tracts.
fn push_counties(alloc: Global, out: &mut Vec<u8>, state: &[u8], size: u32) -> Result<(), NoMemory>
    requires plain { IsPlain state.now }
    requires few { size ≤ 64 }
    ensures { OnOk result (out.new.items ≡ out.old.items ++ flat_map row_text (rows_below schema (counties ∷ tracts ∷ blocks size ∷ []) 1 state.now state.now)) }
{
    for k in 0..3u32 {
        let code = child_code(alloc, state, b'C', k + 1)?;
        push_unit(out, &code, b"county", state)?;
        push_tracts(alloc, out, &code, size)?;
    }
    Ok(())
}

// Appends the rows of the states, each with those of its counties.
fn push_states(alloc: Global, out: &mut Vec<u8>, size: u32) -> Result<(), NoMemory>
    requires { size ≤ 64 }
    ensures { OnOk result (out.new.items ≡ out.old.items ++ flat_map row_text (rows_below schema (branches size) 0 [] (codes "US"))) }
{
    for k in 0..2u32 {
        let code = child_code(alloc, b"", b'S', k + 1)?;
        push_unit(out, &code, b"state", b"US")?;
        push_counties(alloc, out, &code, size)?;
    }
    Ok(())
}

// The file of the spine.
pub(crate) fn spine_file(alloc: Global, size: u32) -> Result<Vec<u8>, NoMemory>
    requires { size ≤ 64 }
    ensures { IfOk result (λ text. text.items ≡ spine_text size) }
{
    let mut text = Vec::new(alloc);
    text.extend_from_slice(b"unit,level,parent\nUS,nation,\n")?;
    push_states(alloc, &mut text, size)?;
    Ok(text)
}
