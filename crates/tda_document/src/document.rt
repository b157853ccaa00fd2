// A written schema out of its document.
ghost use Rattle.toml.specs.View.{table_view};
ghost use Rattle.tda_io.specs.Due.{Gives};
ghost use Rattle.tda_document.specs.Document as spec;

use crate::fault::DocumentFault;
use crate::keys::{KeyTest, document_passes};
use crate::raw::RawSchema;
use crate::typed::typed;
use std::alloc::Global;
use toml::Table;

/// The document as a written schema, over the document's texts: the first of the faults that holds, in the order of
/// `DocumentFault`, where it is none. `NoMemory` where memory ran out.
pub fn written(alloc: Global, document: &Table) -> Result<RawSchema<'_>, DocumentFault>
    ensures { Gives DocumentFault.NoMemory (λ s. s) result (spec.written (table_view document.now)) }
{
    if !document_passes(KeyTest::Known, document) {
        return Err(DocumentFault::UnknownKey);
    }
    if !document_passes(KeyTest::Complete, document) {
        return Err(DocumentFault::MissingKey);
    }
    typed(alloc, document)
}
