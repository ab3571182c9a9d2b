// A request answered: the call on the tables, and its lines.
ghost use Rattle.std.proofs.Math.Option.{some};
ghost use Rattle.std.specs.Prelude.{Some, ◌≡◌};
ghost use Rattle.state_test.specs.StateTest.{state_in};
ghost use Rattle.merge_rules.specs.Book.{call_merge, call_rollback, call_range};
ghost use Rattle.merge_rules.specs.CallLists as rules;
ghost use Rattle.merge_rules.specs.CallLists.{of_call};
ghost use Rattle.merge_rules.specs.Standing.{Standing};
ghost use Rattle.printing.specs.Buffers.{buffer_is};
ghost use Rattle.requests.specs.Requests.{request_is};
ghost use Rattle.output.specs.Replies.{Replies};

use crate::answers::{append_merge, append_range, append_rollback};
use crate::entries::append_log;
use merge::calls::{merge, range, rollback};
use printing::buffer::Written;
use printing::trees::{append_model, append_trees};
use requests::requests::Request;

// Three functions for the three calls, as forged has three: these hold of tables that stand, those of tables that do not.
pub fn reply_merge(
    deck: &[u8],
    schema: &[u64],
    elements: &[u64],
    model: &mut [u64],
    log: &mut [u64],
    file: u64,
    out: &mut [u8],
    w: Written,
) -> Written
    requires { Standing deck.now schema.now elements.now model.old log.old }
    ensures { Replies deck.now schema.now elements.now (state_in model.old log.old) (of_call (call_merge file)) (buffer_is w out.old) (buffer_is result out.new) model.new log.new }
{
    let a = merge(deck, schema, elements, model, log, file);
    append_merge(out, w, file, a)
}

fn reply_rollback(
    deck: &[u8],
    schema: &[u64],
    elements: &[u64],
    model: &mut [u64],
    log: &mut [u64],
    mark: u64,
    out: &mut [u8],
    w: Written,
) -> Written
    requires { Standing deck.now schema.now elements.now model.old log.old }
    ensures { Replies deck.now schema.now elements.now (state_in model.old log.old) (of_call (call_rollback mark)) (buffer_is w out.old) (buffer_is result out.new) model.new log.new }
{
    let a = rollback(deck, schema, elements, model, log, mark);
    append_rollback(out, w, mark, a)
}

fn reply_range(
    deck: &[u8],
    schema: &[u64],
    elements: &[u64],
    model: &[u64],
    log: &[u64],
    e: u64,
    n: u64,
    v: u64,
    out: &mut [u8],
    w: Written,
) -> Written
    requires { Standing deck.now schema.now elements.now model.now log.now }
    ensures { Replies deck.now schema.now elements.now (state_in model.now log.now) (of_call (call_range e n v)) (buffer_is w out.old) (buffer_is result out.new) model.now log.now }
{
    let a = range(deck, schema, elements, model, log, e, n, v);
    append_range(out, w, e, n, v, a)
}

// Any request.
pub fn reply(
    deck: &[u8],
    schema: &[u64],
    elements: &[u64],
    model: &mut [u64],
    log: &mut [u64],
    r: Request,
    out: &mut [u8],
    w: Written,
) -> Written
    requires { Standing deck.now schema.now elements.now model.old log.old }
    ensures { (q : rules.Request) → request_is (Some r) ≡ some q
        → Replies deck.now schema.now elements.now (state_in model.old log.old) q (buffer_is w out.old) (buffer_is result out.new) model.new log.new }
{
    match r {
        Request::Merge(f) => reply_merge(deck, schema, elements, model, log, f, out, w),
        Request::Rollback(mark) => reply_rollback(deck, schema, elements, model, log, mark, out, w),
        Request::Range {
            element,
            name,
            version,
        } => {
            reply_range(
                deck, schema, elements, model, log, element, name, version, out, w,
            )
        }
        Request::Model => append_model(deck, elements, model, out, w),
        Request::Trees => append_trees(deck, elements, model, out, w),
        Request::Log => append_log(log, out, w),
    }
}
