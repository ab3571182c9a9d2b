// The three counts of a merge.
ghost use Rattle.std.specs.Prelude.{◌≡◌, [], ◌∷◌};
ghost use Rattle.tables.specs.LogTable.{log_of, GoodLog, entry_is};
ghost use Rattle.merge_rules.specs.Calls.{counts_of, entries_above};
ghost use Rattle.merge.specs.Calls.{counts_is, plus_counts, CountsBelow};
ghost use Rattle.tables.specs.Limits.{log_limit};

use tables::log::{Entry, entry_at, log_length};

#[derive(Clone, Copy)]
pub struct Counts {
    pub imports: usize,
    pub restrictions: usize,
    pub extensions: usize,
}

// One entry more.
#[tactic(auto, unfolding(crate::specs::Calls::plus_counts, merge_rules::specs::Calls::counts_of, merge_rules::specs::Calls::is_import, merge_rules::specs::Calls::is_restriction, merge_rules::specs::Calls::is_extension, tables::specs::Lists::keep))]
fn count_entry(c: Counts, a: Entry) -> Counts
    requires { CountsBelow log_limit c }
    ensures { counts_is result ≡ plus_counts (counts_is c) (counts_of (entry_is a ∷ [])) }
{
    match a {
        Entry::Import(_, _, _, _) => Counts {
            imports: c.imports + 1,
            ..c
        },
        Entry::Restriction(_, _) => Counts {
            restrictions: c.restrictions + 1,
            ..c
        },
        Entry::Extension(_, _) => Counts {
            extensions: c.extensions + 1,
            ..c
        },
    }
}

// The entries above a mark, by kind.
pub fn counts_above(log: &[u64], mark: usize) -> Counts
    requires { GoodLog log.now }
    ensures { counts_is result ≡ counts_of (entries_above mark (log_of log.now)) }
{
    let mut c = Counts {
        imports: 0,
        restrictions: 0,
        extensions: 0,
    };
    for i in (mark..log_length(log)).rev() {
        let a = entry_at(log, i);
        c = count_entry(c, a);
    }
    c
}
