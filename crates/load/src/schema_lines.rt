// T, G, S and F lines.
ghost use Rattle.std.specs.Prelude.{◌≡◌, List, ℕ, ◌<◌, ltb, length};
ghost use Rattle.tables.specs.Limits.{file_limit, version_limit};
ghost use Rattle.tables.specs.Lists.{all_of};
ghost use Rattle.tables.specs.Records.{File};
ghost use Rattle.tables.specs.SchemaTable.{schema_of, GoodSchema};
ghost use Rattle.deck.specs.Answers.{type_is, group_is, row_is, file_is, PathFits};
ghost use Rattle.deck.specs.Load.{load_t, load_g, load_s, load_f};
ghost use Rattle.schema_calls.specs.Calls.{PathsClosed};
ghost use Rattle.load.specs.Lines.{loading_of, taken, GoodLoading, StepResult};

use crate::progress::{Kind, Progress, in_order};
use crate::refusals::Refusal;
use deck::lines::{FileCells, GroupCells, RowCells, TypeCells};
use schema_calls::calls::has_group;
use schema_calls::rules::{group_rule, rows_meet, sub_element_rule};
use tables::limits::{GROUP_LIMIT, ROW_LIMIT, TYPE_LIMIT};
use tables::numbers::FileNumber;
use tables::schema::{
    add_file, add_group, add_row, add_type, file_count, file_number, group_count, row_count,
    type_count,
};

// `T,type,mode,named,split`: types run from 0.
pub fn load_t(schema: &mut [u64], p: Progress, c: TypeCells) -> Result<Progress, Refusal>
    requires good_schema { GoodSchema schema.old }
    requires mode_bound { c.mode < 5 }
    ensures { (elements model : List ℕ) → GoodLoading p schema.old elements model → StepResult p result schema.new elements model (load_t (loading_of p schema.old elements model) c.ty.0 (type_is c)) }
{
    let t = c.ty;
    let q = in_order(p, Kind::T)?;
    if t.0 != type_count(schema) {
        return Err(Refusal::Form);
    }
    if TYPE_LIMIT <= t.0 {
        return Err(Refusal::Limit);
    }
    add_type(schema, c.mode, c.named, c.split);
    Ok(q)
}

// `G,type,path,mode`
pub fn load_g(schema: &mut [u64], p: Progress, c: GroupCells) -> Result<Progress, Refusal>
    requires good_schema { GoodSchema schema.old }
    requires mode_bound { c.mode < 4 }
    ensures { (elements model : List ℕ) → GoodLoading p schema.old elements model → StepResult p result schema.new elements model (load_g (loading_of p schema.old elements model) (group_is c)) }
{
    let n = group_count(schema);
    let q = in_order(p, Kind::G)?;
    if GROUP_LIMIT <= n {
        return Err(Refusal::Limit);
    }
    let repeated = has_group(schema, c.ty, c.path, n);
    if !group_rule(schema, n, c.ty, c.path, repeated) {
        return Err(Refusal::SchemaRule);
    }
    add_group(schema, c.ty, c.path, c.mode);
    Ok(q)
}

// `S,type,path,name,child,mult,mask`
pub fn load_s(schema: &mut [u64], p: Progress, c: RowCells) -> Result<Progress, Refusal>
    requires good_schema { GoodSchema schema.old }
    requires path_fits { PathFits c.path }
    requires paths_closed { PathsClosed (schema_of schema.old) }
    ensures { (elements model : List ℕ) → GoodLoading p schema.old elements model → StepResult p result schema.new elements model (load_s (loading_of p schema.old elements model) (row_is c)) }
{
    let n = row_count(schema);
    let q = in_order(p, Kind::S)?;
    if ROW_LIMIT <= n {
        return Err(Refusal::Limit);
    }
    let repeated = rows_meet(schema, n, c);
    if !sub_element_rule(schema, n, c, repeated) {
        return Err(Refusal::SchemaRule);
    }
    add_row(schema, c.ty, c.path, c.name, c.child, c.mult, c.mask);
    Ok(q)
}

// Every declared file is below this one.
fn files_below(schema: &[u64], f: FileNumber) -> bool
    requires { GoodSchema schema.now }
    ensures { result ≡ all_of (λ (above : File). ltb above.file f.0) (schema_of schema.now).files }
{
    for i in 0..file_count(schema) {
        let g = file_number(schema, i);
        if f.0 <= g.0 {
            return false;
        }
    }
    true
}

// `F,file,version`: files ascend.
pub fn load_f(schema: &mut [u64], p: Progress, c: FileCells) -> Result<Progress, Refusal>
    requires good_schema { GoodSchema schema.old }
    requires file_lt_file_limit { (c.file.0 < file_limit) × (c.version < version_limit) }
    requires schema_len { length (schema_of schema.old).files ≡ taken (λ (d : File). d.file) file_limit (schema_of schema.old).files }
    ensures { (elements model : List ℕ) → GoodLoading p schema.old elements model → StepResult p result schema.new elements model (load_f (loading_of p schema.old elements model) (file_is c)) }
{
    let f = c.file;
    let q = in_order(p, Kind::F)?;
    if !files_below(schema, f) {
        return Err(Refusal::Form);
    }
    add_file(schema, f, c.version);
    Ok(q)
}
