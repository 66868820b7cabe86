//! The tables of switches.

ghost use Rattle.std.specs.Prelude.{◌≡◌, ◌+◌, ◌*◌, ◌-◌, ◌<◌, ◌≤◌, ◌^◌, length};
ghost use Rattle.opcode_table.specs.Decoding.{word_at, table_place, keys_ascend, pair_count, lookup_length, table_low, table_high, table_count, table_length, pair_number, pair_key, table_offset, pair_offset, switch_default, table_switch, lookup_switch};
ghost use Rattle.opcode_table.specs.Spelling.{HasTable, HasPairs};

use crate::fault::CodeFault;
use crate::insn::Insn;

// The four bytes at a place, as a signed number.
fn word(code: &[u8], place: usize) -> i32
    requires { place + 4 ≤ length code.now }
    ensures { result ≡ word_at code.now place }
{
    let bytes = &code[place..place + 4];
    u32::from_be_bytes([bytes[0], bytes[1], bytes[2], bytes[3]]).cast_signed()
}

// The place of the table of a switch.
fn table_place(pc: u32) -> u32
    requires { pc < 2 ^ 16 }
    ensures { result ≡ table_place pc }
{
    (pc / 4 + 1) * 4
}

// Key i of a `lookupswitch`.
fn key(code: &[u8], table: u32, i: u32) -> i32
    requires { table + 8 + 8 * i + 4 ≤ length code.now }
    ensures { result ≡ pair_key code.now table i }
{
    word(code, table as usize + 8 + 8 * i as usize)
}

// Whether each key is below the next.
fn keys_ascend(code: &[u8], table: u32, pairs: u32) -> bool
    requires count { pairs ≡ pair_count code.now table }
    requires room { table + 8 + 8 * pairs ≤ length code.now }
    ensures { result ≡ keys_ascend code.now table }
{
    for i in 1..pairs {
        if key(code, table, i - 1) >= key(code, table, i) {
            return false;
        }
    }
    true
}

/// The `tableswitch` at a place, where its opcode stands.
pub(crate) fn table_switch(code: &[u8], pc: u32) -> Result<(Insn, u32), CodeFault>
    requires small { length code.now < 2 ^ 16 }
    requires within { pc < length code.now }
    ensures { result ≡ table_switch code.now pc (table_place pc) }
{
    let table = table_place(pc);
    let start = table as usize;
    if code.len() < start + 12 {
        return Err(CodeFault::Cut(pc));
    }
    let low = word(code, start + 4);
    let high = word(code, start + 8);
    if high < low {
        return Err(CodeFault::Switch(pc));
    }
    let length = 12 + 4 * (u64::from(high.abs_diff(low)) + 1);
    if (code.len() as u64) < start as u64 + length {
        return Err(CodeFault::Cut(pc));
    }
    Ok((Insn::TableSwitch { table }, table + length as u32 - pc))
}

/// The `lookupswitch` at a place, where its opcode stands.
pub(crate) fn lookup_switch(code: &[u8], pc: u32) -> Result<(Insn, u32), CodeFault>
    requires small { length code.now < 2 ^ 16 }
    requires within { pc < length code.now }
    ensures { result ≡ lookup_switch code.now pc (table_place pc) }
{
    let table = table_place(pc);
    let start = table as usize;
    if code.len() < start + 8 {
        return Err(CodeFault::Cut(pc));
    }
    let pairs = word(code, start + 4);
    if pairs < 0 {
        return Err(CodeFault::Switch(pc));
    }
    let pairs = pairs.unsigned_abs();
    let length = 8 + 8 * u64::from(pairs);
    if (code.len() as u64) < start as u64 + length {
        return Err(CodeFault::Cut(pc));
    }
    if !keys_ascend(code, table, pairs) {
        return Err(CodeFault::Switch(pc));
    }
    Ok((Insn::LookupSwitch { table }, table + length as u32 - pc))
}

/// The offset of a switch's default, from the switch's own place (JVMS 6.4).
pub fn switch_default(code: &[u8], table: u32) -> i32
    requires { table + 4 ≤ length code.now }
    ensures { result ≡ switch_default code.now table }
{
    word(code, table as usize)
}

/// The lowest number in the table of a `tableswitch` (JVMS 6.4).
pub fn table_low(code: &[u8], table: u32) -> i32
    requires { HasTable code.now table }
    ensures { result ≡ table_low code.now table }
{
    word(code, table as usize + 4)
}

/// The highest number in the table of a `tableswitch` (JVMS 6.4).
pub fn table_high(code: &[u8], table: u32) -> i32
    requires { HasTable code.now table }
    ensures { result ≡ table_high code.now table }
{
    word(code, table as usize + 8)
}

/// How many offsets the table of a `tableswitch` has: one for each number from the lowest to the highest.
pub fn table_count(code: &[u8], table: u32) -> u32
    requires small { length code.now < 2 ^ 16 }
    requires there { HasTable code.now table }
    ensures { result ≡ table_count code.now table }
{
    let low = table_low(code, table);
    table_high(code, table).abs_diff(low) + 1
}

/// The offset for the number that is `i` above the lowest, from the switch's own place (JVMS 6.4).
pub fn table_offset(code: &[u8], table: u32, i: u32) -> i32
    requires there { HasTable code.now table }
    requires within { i < table_count code.now table }
    ensures { result ≡ table_offset code.now table i }
{
    word(code, table as usize + 12 + 4 * i as usize)
}

/// How many pairs the table of a `lookupswitch` has (JVMS 6.4).
pub fn pair_count(code: &[u8], table: u32) -> u32
    requires { HasPairs code.now table }
    ensures { result ≡ pair_count code.now table }
{
    word(code, table as usize + 4).unsigned_abs()
}

/// Key `i` of a `lookupswitch`, from 0 (JVMS 6.4).
pub fn pair_key(code: &[u8], table: u32, i: u32) -> i32
    requires there { HasPairs code.now table }
    requires within { i < pair_count code.now table }
    ensures { result ≡ pair_key code.now table i }
{
    key(code, table, i)
}

/// The offset of pair `i` of a `lookupswitch`, from the switch's own place (JVMS 6.4).
pub fn pair_offset(code: &[u8], table: u32, i: u32) -> i32
    requires there { HasPairs code.now table }
    requires within { i < pair_count code.now table }
    ensures { result ≡ pair_offset code.now table i }
{
    word(code, table as usize + 12 + 8 * i as usize)
}
