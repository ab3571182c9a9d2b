// One line of a tree.
ghost use Rattle.std.specs.Prelude.{List, [], ◌∷◌, ◌++◌, ◌≡◌, ℕ, suc, ◌<◌, ◌≤◌, length};
ghost use Rattle.tables.specs.Bytes.{bytes};
ghost use Rattle.tables.specs.Records.{Fixed, text_of};
ghost use Rattle.tables.specs.Texts.{bytes_at, place_of, place_in, stored_is, stored_in};
ghost use Rattle.tables.specs.ElementsTable.{elements_of};
ghost use Rattle.tables.specs.ModelTable.{count_of, model_of};
ghost use Rattle.state_test.specs.StateTest.{fixed_in};
ghost use Rattle.merge_rules.specs.Program.{digits_before, decimal_of, hexadecimal_of, line_of, text_line, element_line};
ghost use Rattle.printing.specs.Buffers.{buffer_is, Appends};
ghost use Rattle.printing.specs.TreeLines.{value_end, Readable};

use crate::buffer::{Written, append_byte, append_bytes, append_number};
use tables::elements::{element_depth, element_name, text_at};
use tables::model::set_of;
use tables::numbers::Element;
use tables::text::{Place, StoredText};

// The last two fields of a C line.

fn append_number_value(out: &mut [u8], w: Written, letter: u8, n: u64, radix: u64) -> Written
    requires lt_radix { 1 < radix }
    requires radix_bound { radix ≤ 16 }
    ensures { Appends (buffer_is w out.old) ((letter ∷ []) ++ (44 ∷ []) ++ (digits_before (suc n) radix n [] ++ (10 ∷ []))) (buffer_is result out.new) }
{
    let k = append_byte(out, w, letter);
    let l = append_byte(out, k, b',');
    append_number(out, l, n, radix, b'\n')
}

fn append_string_value(deck: &[u8], out: &mut [u8], w: Written, p: Place) -> Written
    requires { place_in deck.now p }
    ensures { Appends (buffer_is w out.old) ((115 ∷ 44 ∷ []) ++ (bytes_at deck.now (place_of p) ++ (10 ∷ []))) (buffer_is result out.new) }
{
    let start = p.start;
    let end = start + p.size;
    let k = append_bytes(out, w, b"s,");
    let l = append_bytes(out, k, &deck[start..end]);
    append_byte(out, l, b'\n')
}

fn append_value(deck: &[u8], out: &mut [u8], w: Written, t: StoredText) -> Written
    requires { stored_in deck.now t }
    ensures { (x : Fixed) → x.deck ≡ deck.now → Appends (buffer_is w out.old) (value_end x (stored_is t)) (buffer_is result out.new) }
{
    match t {
        StoredText::Number(n) => append_number_value(out, w, b'e', n, 10),
        StoredText::Str(p) => append_string_value(deck, out, w, p),
        StoredText::Whole(n) => append_number_value(out, w, b'u', n, 10),
        StoredText::Float(bits) => append_number_value(out, w, b'f', bits, 16),
    }
}

fn append_text(deck: &[u8], out: &mut [u8], w: Written, depth: u64, t: StoredText) -> Written
    requires { stored_in deck.now t }
    ensures { (x : Fixed) → x.deck ≡ deck.now → Appends (buffer_is w out.old) (text_line x depth (stored_is t)) (buffer_is result out.new) }
{
    let k = append_bytes(out, w, b"C,");
    let l = append_number(out, k, depth, 10, b',');
    append_value(deck, out, l, t)
}

pub fn append_text_line(
    deck: &[u8],
    elements: &[u64],
    model: &[u64],
    out: &mut [u8],
    w: Written,
    t: usize,
    depth: u64,
) -> Written
    requires readable { Readable deck.now elements.now model.now }
    requires t_in_bounds { t < length (elements_of elements.now).texts }
    ensures { (schema : List ℕ) → Appends (buffer_is w out.old) (text_line (fixed_in deck.now schema elements.now) depth (text_of (fixed_in deck.now schema elements.now) t)) (buffer_is result out.new) }
{
    append_text(deck, out, w, depth, text_at(elements, t))
}

fn append_row(out: &mut [u8], w: Written, depth: u64, name: u64, set: u64) -> Written
    ensures { Appends (buffer_is w out.old) (line_of (bytes "E" ∷ decimal_of depth ∷ decimal_of name ∷ hexadecimal_of set ∷ [])) (buffer_is result out.new) }
{
    let k = append_bytes(out, w, b"E,");
    let l = append_number(out, k, depth, 10, b',');
    let m = append_number(out, l, name, 10, b',');
    append_number(out, m, set, 16, b'\n')
}

pub fn append_element_line(
    deck: &[u8],
    elements: &[u64],
    model: &[u64],
    out: &mut [u8],
    w: Written,
    e: Element,
) -> Written
    requires readable { Readable deck.now elements.now model.now }
    requires e_bound { e.0 < count_of (model_of model.now) }
    ensures { (schema : List ℕ) → Appends (buffer_is w out.old) (element_line (fixed_in deck.now schema elements.now) (model_of model.now) e.0) (buffer_is result out.new) }
{
    let depth = element_depth(elements, e);
    let name = element_name(elements, e);
    let set = set_of(model, e);
    append_row(out, w, depth, name.0, set.bits())
}
