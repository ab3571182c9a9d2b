// Declared files, their versions and their trees.
ghost use Rattle.std.specs.Prelude.{◌≡◌, ◌<◌};
ghost use Rattle.tables.specs.Cells.{Each};
ghost use Rattle.tables.specs.ElementsTable.{elements_of, GoodElements, no_tree};
ghost use Rattle.tables.specs.Limits.{file_limit};
ghost use Rattle.tables.specs.Lists.{any_of, first_of};
ghost use Rattle.tables.specs.Records.{File};
ghost use Rattle.tables.specs.SchemaTable.{schema_of, GoodSchema, no_file};
ghost use Rattle.tables.specs.SetCells.{set_is};
ghost use Rattle.deck.specs.Schema.{declares_file, declared_files, version_of, least_version};
ghost use Rattle.schema_calls.specs.Calls.{Finds, file_matches, tree_matches, least_with};

use tables::elements::{tree_count, tree_file};
use tables::file_set::FileSet;
use tables::numbers::FileNumber;
use tables::schema::{file_count, file_number, file_version};

// The first row of the file. `tree_place` does the same in another table: over one search with a closure there would be three functions for two.
fn find_file(schema: &[u64], f: FileNumber) -> Option<usize>
    requires { GoodSchema schema.now }
    ensures { Finds no_file (schema_of schema.now).files result (first_of (file_matches f.0) (schema_of schema.now).files) }
{
    for i in 0..file_count(schema) {
        if file_number(schema, i) == f {
            return Some(i);
        }
    }
    None
}

// The place of the first tree of the file.
pub fn tree_place(elements: &[u64], f: FileNumber) -> Option<usize>
    requires { GoodElements elements.now }
    ensures { Finds no_tree (elements_of elements.now).trees result (first_of (tree_matches f.0) (elements_of elements.now).trees) }
{
    for i in 0..tree_count(elements) {
        if tree_file(elements, i) == f {
            return Some(i);
        }
    }
    None
}

// The file has a tree.
pub fn has_tree(elements: &[u64], f: FileNumber) -> bool
    requires { GoodElements elements.now }
    ensures { result ≡ any_of (tree_matches f.0) (elements_of elements.now).trees }
{
    tree_place(elements, f).is_some()
}

pub fn declares_file(schema: &[u64], f: FileNumber) -> bool
    requires { GoodSchema schema.now }
    ensures { result ≡ declares_file (schema_of schema.now) f.0 }
{
    find_file(schema, f).is_some()
}

pub fn declared_files(schema: &[u64]) -> FileSet
    requires good_schema { GoodSchema schema.now }
    requires each { Each (λ (d : File). d.file < file_limit) (schema_of schema.now).files }
    ensures { set_is result ≡ declared_files (schema_of schema.now) }
{
    let mut s = FileSet::none();
    for i in (0..file_count(schema)).rev() {
        s = s.with(file_number(schema, i));
    }
    s
}

// The file's version; 0 where it is not declared.
pub fn version_of(schema: &[u64], f: FileNumber) -> u64
    requires { GoodSchema schema.now }
    ensures { result ≡ version_of (schema_of schema.now) f.0 }
{
    match find_file(schema, f) {
        Some(i) => file_version(schema, i),
        None => 0,
    }
}

// The smaller of v and the version w of file f, if the set has the file.
fn least_with(s: FileSet, f: FileNumber, v: u64, w: u64) -> u64
    ensures { result ≡ least_with (set_is s) f.0 v w }
{
    if s.holds(f) { v.min(w) } else { v }
}

pub fn least_version(schema: &[u64], s: FileSet, v: u64) -> u64
    requires { GoodSchema schema.now }
    ensures { result ≡ least_version (schema_of schema.now) (set_is s) v }
{
    let mut least = v;
    for i in 0..file_count(schema) {
        let f = file_number(schema, i);
        let w = file_version(schema, i);
        least = least_with(s, f, least, w);
    }
    least
}
