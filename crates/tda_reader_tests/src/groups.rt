// The groups of levels, in order, and those of cells, kinds and classes.
ghost use Rattle.std.specs.Prelude.{◌<◌, length};
ghost use Rattle.tda_model.specs.Cells.{cell_count};
ghost use Rattle.tda_model.specs.Groups.{kind_count, classes_of};
ghost use Rattle.tda_schema.specs.Stated.{level_at, queries_at, query_at};
ghost use Rattle.tda_groups.specs.Tree.{IsTreeOf};

use std::alloc::Global;
use std::process::Abort;
use std::test::Fail;
use tda_groups::{GroupTree, tree};
use tda_schema::{Schema, read_schema};

// Ten of twelve cells are possible: nobody in prison is minor.
const PRISON: &str = r#"
version = 1
total = "1"
zero = [{ kind = ["prison"], age = ["minor"] }]

[[attribute]]
name = "kind"
values = ["house", "dorm", "prison"]

[[attribute]]
name = "sex"
values = ["f", "m"]

[[attribute]]
name = "age"
values = ["minor", "adult"]

[[level]]
name = "nation"
query = [{ name = "kind", by = ["kind"], share = "1/16" }, { name = "detail", by = ["kind", "sex", "age"], share = "1/16" }]

[[level]]
name = "county"
query = [{ name = "total", by = [], share = "1/16" }, { name = "kindage", by = ["kind", "age"], share = "1/16" }]
"#;

// The groups of the county, each with the next larger one.
const GROUPS: [(&[u32], Option<u32>); 8] = [
    (&[0, 1, 2, 3, 4, 5, 6, 7, 9, 11], None),
    (&[0, 1, 2, 3], Some(0)),
    (&[0, 2], Some(1)),
    (&[1, 3], Some(1)),
    (&[4, 5, 6, 7], Some(0)),
    (&[4, 6], Some(4)),
    (&[5, 7], Some(4)),
    (&[9, 11], Some(0)),
];

// Whether the groups are these.
fn are_groups(rt: &impl Abort, schema: &Schema, tree: &GroupTree)
    requires { IsTreeOf schema.now (level_at schema.now 1) tree.now }
{
    assert_eq!(rt; tree.len(), 8);
    for group in 0..tree.len() {
        let (members, next) = GROUPS[group as usize];
        assert_eq!(rt; tree.members(group), members);
        assert_eq!(rt; tree.next(group), next);
    }
}

// The smallest group of a cell, None where the cell isn't possible.
fn smallest(schema: &Schema, tree: &GroupTree, level: usize, cell: u32) -> Option<u32>
    requires cell { cell < cell_count schema.now }
    requires tree { IsTreeOf schema.now (level_at schema.now level) tree.now }
{
    if schema.possible(cell) {
        Some(tree.smallest(cell))
    } else {
        None
    }
}

// The group of a kind.
fn of_kind(schema: &Schema, tree: &GroupTree, level: usize, kind: u16) -> u32
    requires kind { kind < kind_count schema.now }
    requires tree { IsTreeOf schema.now (level_at schema.now level) tree.now }
{
    tree.kind_group(kind)
}

// The group of a class of a query, by the place of the class among the query's classes.
fn of_class(schema: &Schema, tree: &GroupTree, level: usize, query: usize, place: usize) -> u32
    requires level { level < length schema.now.levels }
    requires query { query < length (queries_at schema.now level) }
    requires place { place < length (classes_of schema.now (query_at schema.now level query)) }
    requires tree { IsTreeOf schema.now (level_at schema.now level) tree.now }
{
    tree.class_group(query, schema.classes(level, query)[place])
}

// The groups of cells, of kinds and of classes. The last kind is one class, so that both have one group.
fn are_groups_of(rt: &impl Abort, schema: &Schema, tree: &GroupTree)
    requires { IsTreeOf schema.now (level_at schema.now 1) tree.now }
{
    assert!(rt; 1 < schema.levels() && schema.cells() == 12 && schema.kinds() == 3);
    assert_eq!(rt; smallest(schema, tree, 1, 8), None);
    assert_eq!(rt; smallest(schema, tree, 1, 9), Some(7));
    assert_eq!(rt; of_kind(schema, tree, 1, 0), 1);
    assert_eq!(rt; of_kind(schema, tree, 1, 1), 4);
    assert_eq!(rt; of_kind(schema, tree, 1, 2), 7);
    assert!(rt; schema.queries(1) == 2);
    assert!(rt; schema.classes(1, 0).len() == 1 && schema.classes(1, 1).len() == 5);
    assert_eq!(rt; of_class(schema, tree, 1, 0, 0), 0);
    assert_eq!(rt; of_class(schema, tree, 1, 1, 3), 6);
    assert_eq!(rt; of_class(schema, tree, 1, 1, 4), 7);
}

fn of_county(rt: &impl Abort, alloc: Global, schema: &Schema) -> Result<(), Fail> {
    assert!(rt; 1 < schema.levels());
    let tree = tree(alloc, schema, 1)?;
    are_groups(rt, schema, &tree);
    are_groups_of(rt, schema, &tree);
    Ok(())
}

#[test]
fn groups_of_a_county(rt: HostRuntime) -> Result<(), Fail> {
    let schema = read_schema(rt.alloc(), PRISON.as_bytes())?;
    of_county(&rt, rt.alloc(), &schema)
}

const ONE_KIND: &str =
    "version = 1\ntotal = '1'\nattribute = [{ name = 'kind', values = ['house'] }, { name = 'sex', values = ['f', 'm'] }]\nlevel = [{ name = 'nation' }, { name = 'block' }]";

// How many groups there are, and the group of the only kind.
fn of_nation(alloc: Global, schema: &Schema) -> Result<(u32, u32), Fail>
    requires levels { 0 < length schema.now.levels }
    requires kinds { 0 < kind_count schema.now }
{
    let tree = tree(alloc, schema, 0)?;
    Ok((tree.len(), of_kind(schema, &tree, 0, 0)))
}

#[test]
fn the_group_of_the_only_kind(rt: HostRuntime) -> Result<(), Fail> {
    let schema = read_schema(rt.alloc(), ONE_KIND.as_bytes())?;
    assert!(rt; 0 < schema.levels() && schema.kinds() == 1);
    let found = of_nation(rt.alloc(), &schema)?;
    assert_eq!(rt; found, (1, 0));
    Ok(())
}
