// The demo's schema.
ghost use Rattle.std.specs.Prelude.{◌≡◌, IfOk};
ghost use Rattle.tda_demo.specs.Text.{schema_text};

use std::alloc::Global;
use tda_io::NoMemory;

const SCHEMA: &str = r#"version = 1
total = "1"

[[attribute]]
name = "kind"
values = ["house", "dorm", "prison"]

[[attribute]]
name = "sex"
values = ["f", "m"]

[[attribute]]
name = "age"
values = ["minor", "adult"]

[[zero]]
kind = ["prison"]
age = ["minor"]

[[level]]
name = "nation"
query = [{ name = "kind", by = ["kind"], share = "1/16" }, { name = "detail", by = ["kind", "sex", "age"], share = "1/16" }]

[[level]]
name = "state"
query = [{ name = "kind", by = ["kind"], share = "1/16" }, { name = "detail", by = ["kind", "sex", "age"], share = "1/16" }]

[[level]]
name = "county"
query = [{ name = "total", by = [], share = "1/16" }, { name = "kindage", by = ["kind", "age"], share = "1/16" }]

[[level]]
name = "tract"
query = [{ name = "total", by = [], share = "1/8" }, { name = "detail", by = ["kind", "sex", "age"], share = "1/8" }]

[[level]]
name = "block"
query = [{ name = "total", by = [], share = "1/8" }, { name = "detail", by = ["kind", "sex", "age"], share = "1/4" }]
"#;

// The file of the schema.
pub(crate) fn schema_file(alloc: Global) -> Result<Vec<u8>, NoMemory>
    ensures { IfOk result (λ text. text.items ≡ schema_text) }
{
    let mut text = Vec::new(alloc);
    text.extend_from_slice(SCHEMA.as_bytes())?;
    Ok(text)
}
