//! Schemas and spines that the tests of several crates read.
#![tactic(auto)]

/// A schema of one cell and no query.
pub const ONE_CELL: &str = r#"version = 1
total = "1"

[[attribute]]
name = "kind"
values = ["house"]

[[level]]
name = "nation"

[[level]]
name = "state"

[[level]]
name = "block"
"#;

/// A schema of one cell, with one query of the blocks, whose noise has variance 1.
pub const BLOCK_TOTALS: &str = r#"version = 1
total = "1"

[[attribute]]
name = "kind"
values = ["house"]

[[level]]
name = "nation"

[[level]]
name = "state"

[[level]]
name = "block"
query = [{ name = "total", by = [], share = "1/1" }]
"#;

/// A schema of one cell, with two queries of the blocks that have the same class.
pub const TWINS: &str = r#"version = 1
total = "2"

[[attribute]]
name = "kind"
values = ["house"]

[[level]]
name = "nation"

[[level]]
name = "state"

[[level]]
name = "block"
query = [{ name = "total", by = [], share = "1/1" }, { name = "kind", by = ["kind"], share = "1/1" }]
"#;

/// A schema of one cell, with a query of the nation and one of the blocks, and none of the states between them.
pub const OUTER_LEVELS: &str = r#"version = 1
total = "2"

[[attribute]]
name = "kind"
values = ["house"]

[[level]]
name = "nation"
query = [{ name = "all", by = [], share = "1/1" }]

[[level]]
name = "state"

[[level]]
name = "block"
query = [{ name = "total", by = [], share = "1/1" }]
"#;

/// A schema of three cells, each a kind: 0 the households, 1 dormitories and 2 prisons.
pub const THREE_KINDS: &str = r#"version = 1
total = "1"

[[attribute]]
name = "kind"
values = ["house", "dorm", "prison"]

[[level]]
name = "nation"

[[level]]
name = "state"

[[level]]
name = "block"
"#;

/// A schema whose cells 0 to 3 are house f, house m, dorm f and dorm m, of which the last isn't possible.
pub const FOUR_CELLS: &str = r#"version = 1
total = "1"

[[attribute]]
name = "kind"
values = ["house", "dorm"]

[[attribute]]
name = "sex"
values = ["f", "m"]

[[zero]]
kind = ["dorm"]
sex = ["m"]

[[level]]
name = "nation"

[[level]]
name = "state"
query = [{ name = "kind", by = ["kind"], share = "1/4" }, { name = "all", by = [], share = "1/4" }]

[[level]]
name = "block"
query = [{ name = "detail", by = ["kind", "sex"], share = "1/4" }]
"#;

/// A schema of three kinds, two sexes and two ages, of which nobody in prison is minor, with queries at each of five levels.
pub const DEMO: &str = r#"version = 1
total = "1"

[[attribute]]
name = "kind"
values = ["house", "dorm", "prison"]

[[attribute]]
name = "sex"
values = ["f", "m"]

[[attribute]]
name = "age"
values = ["minor", "adult"]

[[zero]]
kind = ["prison"]
age = ["minor"]

[[level]]
name = "nation"
query = [{ name = "kind", by = ["kind"], share = "1/16" }, { name = "detail", by = ["kind", "sex", "age"], share = "1/16" }]

[[level]]
name = "state"
query = [{ name = "kind", by = ["kind"], share = "1/16" }, { name = "detail", by = ["kind", "sex", "age"], share = "1/16" }]

[[level]]
name = "county"
query = [{ name = "total", by = [], share = "1/16" }, { name = "kindage", by = ["kind", "age"], share = "1/16" }]

[[level]]
name = "tract"
query = [{ name = "total", by = [], share = "1/8" }, { name = "detail", by = ["kind", "sex", "age"], share = "1/8" }]

[[level]]
name = "block"
query = [{ name = "total", by = [], share = "1/8" }, { name = "detail", by = ["kind", "sex", "age"], share = "1/4" }]
"#;

/// A spine of one state with two blocks: units 0 to 3.
pub const TWO_BLOCKS: &str = "unit,level,parent
US,nation,
S1,state,US
B1,block,S1
B2,block,S1
";

/// A spine of two states with a block each: units 0 to 4. A state stands after a block of another.
pub const TWO_STATES: &str = "unit,level,parent
US,nation,
S1,state,US
B1,block,S1
S2,state,US
B2,block,S2
";

/// A spine of two states with two blocks and one: units 0 to 5.
pub const THREE_BLOCKS: &str = "unit,level,parent
US,nation,
S1,state,US
B1,block,S1
B2,block,S1
S2,state,US
B3,block,S2
";
