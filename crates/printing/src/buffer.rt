// Bytes and numbers behind what is written in a lent buffer.
ghost use Rattle.std.specs.Prelude.{[], ◌∷◌, ◌++◌, ◌≡◌, suc, ◌<◌, ◌≤◌};
ghost use Rattle.merge_rules.specs.Program.{digit_byte, digits_before};
ghost use Rattle.printing.specs.Buffers.{buffer_is, is_full, Appends};

// How many bytes of the text are still to be passed over, and the count of bytes written from the buffer's start. It goes beside the buffer, which
// C lends: a struct that holds both would be lent as `&mut` to each function, and each clause would name it before and after, as it does now.
#[derive(Clone, Copy)]
pub struct Written {
    pub skip: usize,
    pub count: usize,
}

// A byte behind what is written; it is left out where it is to be passed over, or where there is no room.
pub fn append_byte(out: &mut [u8], w: Written, b: u8) -> Written
    ensures { Appends (buffer_is w out.old) (b ∷ []) (buffer_is result out.new) }
{
    let at = w.count;
    if w.skip != 0 {
        return Written {
            skip: w.skip - 1,
            count: at,
        };
    }
    if out.len() <= at {
        return w;
    }
    out[at] = b;
    Written {
        skip: 0,
        count: at + 1,
    }
}

// No text changes the buffer any more.
pub fn is_full(out: &[u8], w: Written) -> bool
    ensures { result ≡ is_full (buffer_is w out.now) }
{
    if w.skip != 0 {
        return false;
    }
    out.len() <= w.count
}

pub fn append_bytes(out: &mut [u8], w: Written, text: &[u8]) -> Written
    ensures { Appends (buffer_is w out.old) text.now (buffer_is result out.new) }
{
    let mut k = w;
    for b in text {
        k = append_byte(out, k, *b);
    }
    k
}

fn digit_byte(d: u64) -> u8
    requires { d < 16 }
    ensures { result ≡ digit_byte d }
{
    if d < 10 {
        return b'0' + d as u8;
    }
    b'a' + (d - 10) as u8
}

// The first digit comes last: a loop would need a buffer of its own for the digits.
fn append_digits(out: &mut [u8], w: Written, n: u64, radix: u64) -> Written
    requires lt_radix { 1 < radix }
    requires radix_bound { radix ≤ 16 }
    ensures { Appends (buffer_is w out.old) (digits_before (suc n) radix n []) (buffer_is result out.new) }
{
    let d = digit_byte(n % radix);
    if n < radix {
        return append_byte(out, w, d);
    }
    let k = append_digits(out, w, n / radix, radix);
    append_byte(out, k, d)
}

// A number and the byte that ends its field.
pub fn append_number(out: &mut [u8], w: Written, n: u64, radix: u64, end: u8) -> Written
    requires lt_radix { 1 < radix }
    requires radix_bound { radix ≤ 16 }
    ensures { Appends (buffer_is w out.old) (digits_before (suc n) radix n [] ++ (end ∷ [])) (buffer_is result out.new) }
{
    let k = append_digits(out, w, n, radix);
    append_byte(out, k, end)
}
