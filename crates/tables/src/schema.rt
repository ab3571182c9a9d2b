// The schema table: the counts of types, groups, rows and files; each type's mode, named and split; each group's type, path and mode; each
// row's type, path, name, child type, mult and mask; each file's number and version; the indexes of groups by path, rows by name, rows by
// path; zeros. A path is four cells, part + 1, 0 for none.

ghost use Rattle.std.specs.Prelude.{◌≡◌, ◌<◌, length, get_or};
ghost use Rattle.tables.specs.Limits.{type_limit, group_limit, row_limit, file_limit, path_limit};
ghost use Rattle.tables.specs.Paths.{cells_of, parts_of, path_cells};
ghost use Rattle.tables.specs.Records.{type_row, modes, add_type, add_group, add_sub_element, add_file};
ghost use Rattle.tables.specs.SchemaTable.{schema_of, GoodSchema, HoldsSchema, type_cells, group_cells, sub_element_cells, file_cells, no_group, no_sub_element, no_file, mode_number, mode_from, mult_is, mult_number, mult_from, bool_number, type_width, group_width, row_width, file_width};

use crate::cells::push_row;
use crate::index::{INDEX_SIZE, bucket, link, path_bucket};
use crate::limits::{FILE_LIMIT, GROUP_LIMIT, ROW_LIMIT, TYPE_LIMIT};
use crate::numbers::{FileNumber, Name, TypeNumber};
use crate::path::Path;

// Modes. They are numbers, as in a table's cells: the rules of the merge are a match over mode numbers.
pub const SEQUENCE: u64 = 0;

pub const CHOICE: u64 = 1;

pub const BAG: u64 = 2;

pub const MIXED: u64 = 3;

pub const CHARACTERS: u64 = 4;

// How often an element may stand in a list. The cells and the deck have these as numbers, in this order.
#[derive(Clone, Copy, PartialEq, Eq)]
pub enum Mult {
    AtMostOne,
    One,
    Any,
}

impl Mult {
    // It cannot fail: the cells and the deck have numbers up to 2.
    pub fn from_number(n: u64) -> Mult
        ensures { mult_is result ≡ mult_from n }
    {
        match n {
            0 => Mult::AtMostOne,
            1 => Mult::One,
            _ => Mult::Any,
        }
    }

    fn number(self) -> u64
        ensures { result ≡ mult_number (mult_is self) }
    {
        self as u64
    }
}

// The cells of one row of each area.
pub const TYPE_WIDTH: usize = 3;

pub const GROUP_WIDTH: usize = 6;

pub const ROW_WIDTH: usize = 9;

pub const FILE_WIDTH: usize = 2;

// Where each area begins, and the table's size.
pub const TYPES_AT: usize = 4;

pub const GROUPS_AT: usize = TYPES_AT + TYPE_LIMIT * TYPE_WIDTH;

pub const ROWS_AT: usize = GROUPS_AT + GROUP_LIMIT * GROUP_WIDTH;

pub const FILES_AT: usize = ROWS_AT + ROW_LIMIT * ROW_WIDTH;

pub const GROUP_INDEX_AT: usize = FILES_AT + FILE_LIMIT as usize * FILE_WIDTH;

pub const NAME_INDEX_AT: usize = GROUP_INDEX_AT + INDEX_SIZE;

pub const PATH_INDEX_AT: usize = NAME_INDEX_AT + INDEX_SIZE;

pub const SCHEMA_SIZE: usize = PATH_INDEX_AT + INDEX_SIZE;

// The counts of a table, here and in the other tables, and below the cells of a row: a function for each area, since each contract names the
// records of its own area.

pub fn type_count(schema: &[u64]) -> usize
    requires { GoodSchema schema.now }
    ensures { result ≡ length (schema_of schema.now).types }
{
    schema[0] as usize
}

pub fn group_count(schema: &[u64]) -> usize
    requires { GoodSchema schema.now }
    ensures { result ≡ length (schema_of schema.now).groups }
{
    schema[1] as usize
}

pub fn row_count(schema: &[u64]) -> usize
    requires { GoodSchema schema.now }
    ensures { result ≡ length (schema_of schema.now).sub_elements }
{
    schema[2] as usize
}

pub fn file_count(schema: &[u64]) -> usize
    requires { GoodSchema schema.now }
    ensures { result ≡ length (schema_of schema.now).files }
{
    schema[3] as usize
}

// One cell of type t: mode, named or split.
fn type_cell(schema: &[u64], t: usize, field: usize) -> u64
    requires good_schema { GoodSchema schema.now }
    requires t_in_bounds { t < length (schema_of schema.now).types }
    requires field_lt_type_width { field < type_width }
    ensures { result ≡ get_or (type_cells (type_row (schema_of schema.now) t)) field 0 }
{
    schema[TYPES_AT + (t * TYPE_WIDTH + field)]
}

pub fn type_mode(schema: &[u64], t: TypeNumber) -> u64
    requires good_schema { GoodSchema schema.now }
    requires t_in_bounds { t.0 < length (schema_of schema.now).types }
    ensures { result ≡ mode_number (type_row (schema_of schema.now) t.0).mode }
{
    type_cell(schema, t.0, 0)
}

pub fn type_named(schema: &[u64], t: TypeNumber) -> bool
    requires good_schema { GoodSchema schema.now }
    requires t_in_bounds { t.0 < length (schema_of schema.now).types }
    ensures { result ≡ (type_row (schema_of schema.now) t.0).named }
{
    type_cell(schema, t.0, 1) != 0
}

pub fn type_split(schema: &[u64], t: TypeNumber) -> u64
    requires good_schema { GoodSchema schema.now }
    requires t_in_bounds { t.0 < length (schema_of schema.now).types }
    ensures { result ≡ (type_row (schema_of schema.now) t.0).split }
{
    type_cell(schema, t.0, 2)
}

// One cell of group g: type, the path's four, mode.
fn group_cell(schema: &[u64], g: usize, field: usize) -> u64
    requires good_schema { GoodSchema schema.now }
    requires g_in_bounds { g < length (schema_of schema.now).groups }
    requires field_lt_group_width { field < group_width }
    ensures { result ≡ get_or (group_cells (get_or (schema_of schema.now).groups g no_group)) field 0 }
{
    schema[GROUPS_AT + (g * GROUP_WIDTH + field)]
}

pub fn group_type(schema: &[u64], g: usize) -> TypeNumber
    requires good_schema { GoodSchema schema.now }
    requires g_in_bounds { g < length (schema_of schema.now).groups }
    ensures { result.0 ≡ (get_or (schema_of schema.now).groups g no_group).type }
{
    TypeNumber(group_cell(schema, g, 0) as usize)
}

pub fn group_path(schema: &[u64], g: usize) -> Path
    requires good_schema { GoodSchema schema.now }
    requires g_in_bounds { g < length (schema_of schema.now).groups }
    ensures { parts_of result ≡ (get_or (schema_of schema.now).groups g no_group).path }
{
    Path(
        group_cell(schema, g, 1),
        group_cell(schema, g, 2),
        group_cell(schema, g, 3),
        group_cell(schema, g, 4),
    )
}

pub fn group_mode(schema: &[u64], g: usize) -> u64
    requires good_schema { GoodSchema schema.now }
    requires g_in_bounds { g < length (schema_of schema.now).groups }
    ensures { result ≡ mode_number (get_or (schema_of schema.now).groups g no_group).mode }
{
    group_cell(schema, g, 5)
}

// One cell of row i: type, the path's four, name, child type, mult, mask.
fn row_cell(schema: &[u64], i: usize, field: usize) -> u64
    requires good_schema { GoodSchema schema.now }
    requires i_in_bounds { i < length (schema_of schema.now).sub_elements }
    requires field_lt_row_width { field < row_width }
    ensures { result ≡ get_or (sub_element_cells (get_or (schema_of schema.now).sub_elements i no_sub_element)) field 0 }
{
    schema[ROWS_AT + (i * ROW_WIDTH + field)]
}

pub fn row_type(schema: &[u64], i: usize) -> TypeNumber
    requires good_schema { GoodSchema schema.now }
    requires i_in_bounds { i < length (schema_of schema.now).sub_elements }
    ensures { result.0 ≡ (get_or (schema_of schema.now).sub_elements i no_sub_element).type }
{
    TypeNumber(row_cell(schema, i, 0) as usize)
}

pub fn row_path(schema: &[u64], i: usize) -> Path
    requires good_schema { GoodSchema schema.now }
    requires i_in_bounds { i < length (schema_of schema.now).sub_elements }
    ensures { parts_of result ≡ (get_or (schema_of schema.now).sub_elements i no_sub_element).path }
{
    Path(
        row_cell(schema, i, 1),
        row_cell(schema, i, 2),
        row_cell(schema, i, 3),
        row_cell(schema, i, 4),
    )
}

pub fn row_name(schema: &[u64], i: usize) -> Name
    requires good_schema { GoodSchema schema.now }
    requires i_in_bounds { i < length (schema_of schema.now).sub_elements }
    ensures { result.0 ≡ (get_or (schema_of schema.now).sub_elements i no_sub_element).name }
{
    Name(row_cell(schema, i, 5))
}

pub fn row_child(schema: &[u64], i: usize) -> TypeNumber
    requires good_schema { GoodSchema schema.now }
    requires i_in_bounds { i < length (schema_of schema.now).sub_elements }
    ensures { result.0 ≡ (get_or (schema_of schema.now).sub_elements i no_sub_element).child_type }
{
    TypeNumber(row_cell(schema, i, 6) as usize)
}

pub fn row_mult(schema: &[u64], i: usize) -> Mult
    requires good_schema { GoodSchema schema.now }
    requires i_in_bounds { i < length (schema_of schema.now).sub_elements }
    ensures { mult_is result ≡ (get_or (schema_of schema.now).sub_elements i no_sub_element).mult }
{
    Mult::from_number(row_cell(schema, i, 7))
}

pub fn row_mask(schema: &[u64], i: usize) -> u64
    requires good_schema { GoodSchema schema.now }
    requires i_in_bounds { i < length (schema_of schema.now).sub_elements }
    ensures { result ≡ (get_or (schema_of schema.now).sub_elements i no_sub_element).mask }
{
    row_cell(schema, i, 8)
}

// One cell of file i: number or version.
fn file_cell(schema: &[u64], i: usize, field: usize) -> u64
    requires good_schema { GoodSchema schema.now }
    requires i_in_bounds { i < length (schema_of schema.now).files }
    requires field_lt_file_width { field < file_width }
    ensures { result ≡ get_or (file_cells (get_or (schema_of schema.now).files i no_file)) field 0 }
{
    schema[FILES_AT + (i * FILE_WIDTH + field)]
}

pub fn file_number(schema: &[u64], i: usize) -> FileNumber
    requires good_schema { GoodSchema schema.now }
    requires i_in_bounds { i < length (schema_of schema.now).files }
    ensures { result.0 ≡ (get_or (schema_of schema.now).files i no_file).file }
{
    FileNumber(file_cell(schema, i, 0))
}

pub fn file_version(schema: &[u64], i: usize) -> u64
    requires good_schema { GoodSchema schema.now }
    requires i_in_bounds { i < length (schema_of schema.now).files }
    ensures { result ≡ (get_or (schema_of schema.now).files i no_file).version }
{
    file_cell(schema, i, 1)
}

// The four cells of the path's parts, zeros behind the last part.
fn stored_path(p: Path) -> Path
    ensures { cells_of result ≡ path_cells path_limit (parts_of p) }
{
    let a = p.0;
    let b = p.1;
    let c = p.2;
    if a == 0 {
        return Path(0, 0, 0, 0);
    }
    if b == 0 {
        return Path(a, 0, 0, 0);
    }
    if c == 0 {
        return Path(a, b, 0, 0);
    }
    p
}

pub fn add_type(schema: &mut [u64], mode: u64, named: bool, split: u64)
    requires good_schema { GoodSchema schema.old }
    requires schema_len_bound { length (schema_of schema.old).types < type_limit }
    requires mode_in_bounds { mode < length modes }
    ensures { HoldsSchema schema.new (add_type (schema_of schema.old) (record { mode = mode_from mode; named = named; split = split })) }
{
    let m = type_count(schema);
    push_row(schema, 0, TYPES_AT, m, &[mode, named as u64, split]);
}

pub fn add_group(schema: &mut [u64], t: TypeNumber, p: Path, mode: u64)
    requires good_schema { GoodSchema schema.old }
    requires schema_len_bound { length (schema_of schema.old).groups < group_limit }
    requires mode_in_bounds { mode < length modes }
    ensures { HoldsSchema schema.new (add_group (schema_of schema.old) (record { type = t.0; path = parts_of p; mode = mode_from mode })) }
{
    let m = group_count(schema);
    let q = stored_path(p);
    push_row(
        schema,
        1,
        GROUPS_AT,
        m,
        &[t.0 as u64, q.0, q.1, q.2, q.3, mode],
    );
    link(schema, GROUP_INDEX_AT, m, path_bucket(t.0, p));
}

pub fn add_row(
    schema: &mut [u64],
    t: TypeNumber,
    p: Path,
    n: Name,
    child: TypeNumber,
    mult: Mult,
    mask: u64,
)
    requires good_schema { GoodSchema schema.old }
    requires schema_len_bound { length (schema_of schema.old).sub_elements < row_limit }
    ensures { HoldsSchema schema.new (add_sub_element (schema_of schema.old) (record { type = t.0; path = parts_of p; name = n.0; child_type = child.0; mult = mult_is mult; mask = mask })) }
{
    let m = row_count(schema);
    let q = stored_path(p);
    push_row(
        schema,
        2,
        ROWS_AT,
        m,
        &[
            t.0 as u64,
            q.0,
            q.1,
            q.2,
            q.3,
            n.0,
            child.0 as u64,
            mult.number(),
            mask,
        ],
    );
    link(schema, NAME_INDEX_AT, m, bucket(t.0, n.0 as usize));
    link(schema, PATH_INDEX_AT, m, path_bucket(t.0, p));
}

pub fn add_file(schema: &mut [u64], f: FileNumber, version: u64)
    requires good_schema { GoodSchema schema.old }
    requires schema_len_bound { length (schema_of schema.old).files < file_limit }
    ensures { HoldsSchema schema.new (add_file (schema_of schema.old) (record { file = f.0; version = version })) }
{
    let m = file_count(schema);
    push_row(schema, 3, FILES_AT, m, &[f.0, version]);
}
