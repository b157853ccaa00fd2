// Codes of units.
ghost use Rattle.std.specs.Prelude.{◌≡◌, ◌+◌, ◌*◌, ◌<◌, ◌≤◌, ◌++◌, ◌∷◌, [], IfOk, OnOk};
ghost use Rattle.std.specs.Fmt.{decimal};
ghost use Rattle.tda_demo.specs.BlockCodes.{leaf_code};
ghost use Rattle.tda_demo.specs.DemoSpine.{branches};

use std::alloc::Global;
use tda_io::{NoMemory, push_int};

// Appends a letter and a number.
fn push_part(code: &mut Vec<u8>, letter: u8, number: u32) -> Result<(), NoMemory>
    ensures { OnOk result (code.new.items ≡ code.old.items ++ (letter ∷ decimal number)) }
{
    code.push(letter)?;
    push_int(code, i128::from(number))
}

// The code of a child: its parent's, a letter and the child's number.
pub(crate) fn child_code(
    alloc: Global,
    stem: &[u8],
    letter: u8,
    number: u32,
) -> Result<Vec<u8>, NoMemory>
    ensures { IfOk result (λ code. code.items ≡ stem.now ++ (letter ∷ decimal number)) }
{
    let mut code = Vec::new(alloc);
    code.extend_from_slice(stem)?;
    push_part(&mut code, letter, number)?;
    Ok(code)
}

// The code of the block of a number, from 0, in file order.
pub(crate) fn block_code(alloc: Global, size: u32, block: u32) -> Result<Vec<u8>, NoMemory>
    requires some { 1 ≤ size }
    requires few { size ≤ 64 }
    requires here { block < 24 * size }
    ensures { IfOk result (λ code. code.items ≡ leaf_code (branches size) [] block) }
{
    let in_state = block % (12 * size);
    let in_county = in_state % (4 * size);
    let mut code = Vec::new(alloc);
    push_part(&mut code, b'S', block / (12 * size) + 1)?;
    push_part(&mut code, b'C', in_state / (4 * size) + 1)?;
    push_part(&mut code, b'T', in_county / size + 1)?;
    push_part(&mut code, b'B', in_county % size + 1)?;
    Ok(code)
}
