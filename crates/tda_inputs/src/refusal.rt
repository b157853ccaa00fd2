// A file that isn't accepted, and how that is reported.
use crate::reading::File;
use std::alloc::Global;
use tda_io::NoMemory;

/// A file that isn't accepted, and the text of its fault.
#[derive(Debug, Drop)]
pub struct Refusal {
    pub file: File,
    pub fault: Vec<u8>,
}

impl Refusal {
    ghost use Rattle.std.specs.Prelude.{◌≡◌, IfOk};
    ghost use Rattle.tda_inputs.specs.Files.{name_of};
    ghost use Rattle.tda_inputs.specs.Ending.{refused_ending};

    /// The line of the report that tells it.
    pub fn line(&self, alloc: Global) -> Result<Vec<u8>, NoMemory>
        ensures { IfOk result (λ v. v.items ≡ (refused_ending (name_of self.now.file) self.now.fault.items).report) }
    {
        let name = self.file.name();
        let mut line = format!(in alloc; "refused {name} ")?.into_bytes();
        line.extend_from_slice(&self.fault)?;
        line.push(b'\n')?;
        Ok(line)
    }
}
