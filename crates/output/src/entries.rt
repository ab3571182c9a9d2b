// The log's lines, behind what a buffer holds.
ghost use Rattle.std.specs.Prelude.{[], ◌∷◌, ◌++◌, suc, ◌<◌, ◌≤◌};
ghost use Rattle.tables.specs.Bytes.{bytes};
ghost use Rattle.tables.specs.LogTable.{log_of, GoodLog, entry_is};
ghost use Rattle.tables.specs.ModelTable.{parent_is};
ghost use Rattle.tables.specs.SetCells.{set_is};
ghost use Rattle.merge_rules.specs.CallLists.{entry_line, log_lines};
ghost use Rattle.merge_rules.specs.Program.{digits_before, decimal_of, hexadecimal_of, or_dash, line_of};
ghost use Rattle.printing.specs.Buffers.{buffer_is, Appends};

use crate::answers::append_optional;
use printing::buffer::{Written, append_bytes, append_number};
use tables::file_set::FileSet;
use tables::log::{Entry, entry_at, log_length};
use tables::numbers::Element;

// An old parent and an old set.
fn append_old(out: &mut [u8], w: Written, p: Option<Element>, s: FileSet) -> Written
    ensures { Appends (buffer_is w out.old) (line_of (or_dash (parent_is p) ∷ hexadecimal_of (set_is s) ∷ [])) (buffer_is result out.new) }
{
    let k = append_optional(out, w, p.map(|e| e.0 as u64), b',');
    append_number(out, k, s.bits(), 16, b'\n')
}

fn append_import(
    out: &mut [u8],
    w: Written,
    e: Element,
    p: Element,
    parent: Option<Element>,
    set: FileSet,
) -> Written
    ensures { Appends (buffer_is w out.old) (line_of (bytes "import" ∷ decimal_of e.0 ∷ decimal_of p.0 ∷ or_dash (parent_is parent) ∷ hexadecimal_of (set_is set) ∷ [])) (buffer_is result out.new) }
{
    let k = append_bytes(out, w, b"import,");
    let l = append_number(out, k, e.0 as u64, 10, b',');
    let m = append_number(out, l, p.0 as u64, 10, b',');
    append_old(out, m, parent, set)
}

// A word with its comma, an element, and a number in this radix.
fn append_change(out: &mut [u8], w: Written, word: &[u8], e: Element, n: u64, radix: u64) -> Written
    requires lt_radix { 1 < radix }
    requires radix_bound { radix ≤ 16 }
    ensures { Appends (buffer_is w out.old) (word.now ++ ((decimal_of e.0 ++ bytes ",") ++ (digits_before (suc n) radix n [] ++ bytes "\n"))) (buffer_is result out.new) }
{
    let k = append_bytes(out, w, word);
    let l = append_number(out, k, e.0 as u64, 10, b',');
    append_number(out, l, n, radix, b'\n')
}

fn append_entry(out: &mut [u8], w: Written, a: Entry) -> Written
    ensures { Appends (buffer_is w out.old) (entry_line (entry_is a)) (buffer_is result out.new) }
{
    match a {
        Entry::Import(e, p, parent, set) => append_import(out, w, e, p, parent, set),
        Entry::Restriction(e, set) => append_change(out, w, b"restriction,", e, set.bits(), 16),
        Entry::Extension(e, f) => append_change(out, w, b"extension,", e, f.0, 10),
    }
}

// The log's length, and its entries, oldest first.
pub fn append_log(log: &[u64], out: &mut [u8], w: Written) -> Written
    requires { GoodLog log.now }
    ensures { Appends (buffer_is w out.old) (log_lines (log_of log.now)) (buffer_is result out.new) }
{
    let n = log_length(log);
    let head = append_bytes(out, w, b"log,");
    let mut k = append_number(out, head, n as u64, 10, b'\n');
    for i in 0..n {
        let a = entry_at(log, i);
        k = append_entry(out, k, a);
    }
    k
}
