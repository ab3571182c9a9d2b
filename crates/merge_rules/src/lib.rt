// Range, pairing, import, level and pairs, log and rollback. The rules of this crate are in specs/.
#![tactic(auto)]
