//! The keys of switches (JVMS 6, `tableswitch` and `lookupswitch`).

ghost use Rattle.std.specs.Prelude.{◌≡◌, ◌<◌, ◌≤◌, ◌^◌, length};
ghost use Rattle.opcode_table.specs.Spelling.{HasSwitch, HasTable, HasPairs};
ghost use Rattle.class_machine.specs.ClassFiles.{table_keys, pair_keys};
ghost use Rattle.class_machine.specs.Effect.{key_target};
ghost use Rattle.machine_code.specs.Keys.{insn_keys};

use opcode_table::{Insn, pair_count, pair_key, table_high, table_low};

// The number of a key's target in a `tableswitch`: 0 is the default's.
fn range_target(code: &[u8], table: u32, key: i32) -> u32
    requires small { length code.now < 2 ^ 16 }
    requires there { HasTable code.now table }
    ensures { result ≡ key_target (table_keys code.now table) key 1 }
{
    let low = table_low(code, table);
    if low <= key && key <= table_high(code, table) {
        key.abs_diff(low) + 1
    } else {
        0
    }
}

// The same in a `lookupswitch`.
fn pairs_target(code: &[u8], table: u32, key: i32) -> u32
    requires { HasPairs code.now table }
    ensures { result ≡ key_target (pair_keys code.now table) key 1 }
{
    for i in 0..pair_count(code, table) {
        if pair_key(code, table, i) == key {
            return i + 1;
        }
    }
    0
}

/// The number of a key's target: 0 is the default's, and the only one of an instruction without keys.
pub(crate) fn target_of_key(code: &[u8], insn: Insn, key: i32) -> u32
    requires small { length code.now < 2 ^ 16 }
    requires there { HasSwitch code.now insn }
    ensures { result ≡ key_target (insn_keys code.now insn) key 1 }
{
    match insn {
        Insn::TableSwitch { table } => range_target(code, table, key),
        Insn::LookupSwitch { table } => pairs_target(code, table, key),
        _ => 0,
    }
}
