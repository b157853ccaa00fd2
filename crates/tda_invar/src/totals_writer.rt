// Writes totals.
ghost use Rattle.std.specs.Prelude.{◌≡◌, ◌≤◌, ◌^◌, ◌++◌, ◌∷◌, Ok, [], length, take, true, OnOk, OnErr};
ghost use Rattle.tda_io.specs.Texts.{name_test};
ghost use Rattle.tda_model.specs.TablesText.{row_text};
ghost use Rattle.std.specs.Fmt.{decimal};
ghost use Rattle.tda_invar.specs.Totals.{header, totals_text, read, AreTotalsOf};

use crate::Totals;
use crate::totals::STATES;
use tda_io::{NoMemory, push_field, push_int};
use tda_spine::Spine;

// Appends the header.
fn push_header(out: &mut Vec<u8>) -> Result<(), NoMemory>
    ensures ok { OnOk result (out.new.items ≡ out.old.items ++ row_text header) }
    ensures err { OnErr result (take (length out.old.items) out.new.items ≡ out.old.items) }
{
    push_field(out, b"state", false)?;
    push_field(out, b"total", true)
}

// Appends the row of a state.
fn push_total(out: &mut Vec<u8>, code: &str, total: u64) -> Result<(), NoMemory>
    requires { name_test 16 code.now ≡ true }
    ensures ok { OnOk result (out.new.items ≡ out.old.items ++ row_text (code.now ∷ decimal total ∷ [])) }
    ensures err { OnErr result (take (length out.old.items) out.new.items ≡ out.old.items) }
{
    push_field(out, code.as_bytes(), false)?;
    push_int(out, i128::from(total))?;
    out.push(b'\n')?;
    Ok(())
}

// Appends the header and the rows of all states.
fn push_all(spine: &Spine, totals: &Totals, out: &mut Vec<u8>) -> Result<(), NoMemory>
    requires { AreTotalsOf spine.now totals.now }
    ensures ok { OnOk result (out.new.items ≡ out.old.items ++ totals_text spine.now totals.now) }
    ensures err { OnErr result (take (length out.old.items) out.new.items ≡ out.old.items) }
{
    // There is a level of states, and units have codes.
    let _ = spine.units();
    push_header(out)?;
    for (place, state) in spine.at_level(STATES).iter().enumerate() {
        push_total(out, spine.code(*state), totals.nth(place))?;
    }
    Ok(())
}

/// Appends the file of totals, with the header `state,total` and the states in file order, at most 28 bytes a row and
/// 2^28 bytes in all.
///
/// `read_totals` accepts what is written, and gives the totals back. After `NoMemory` nothing was appended.
pub fn write_totals(spine: &Spine, totals: &Totals, out: &mut Vec<u8>) -> Result<(), NoMemory>
    requires { AreTotalsOf spine.now totals.now }
    ensures ok { OnOk result (out.new.items ≡ out.old.items ++ totals_text spine.now totals.now) }
    ensures err { OnErr result (out.new.items ≡ out.old.items) }
    ensures read_back { read spine.now (totals_text spine.now totals.now) ≡ Ok totals.now }
    ensures limit { length (totals_text spine.now totals.now) ≤ 2 ^ 28 }
{
    // Each unit has a code of its own.
    let _ = spine.units();
    let before = out.len();
    let written = push_all(spine, totals, out);
    if written.is_err() {
        out.truncate(before);
    }
    written
}
