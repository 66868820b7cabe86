//! Instructions of compiled methods, read and written.

use opcode_table::{
    CodeFault, Insn, decode_at, encode, length_of, mnemonic, pair_count, pair_key, pair_offset,
    switch_default, table_count, table_high, table_low, table_offset,
};
use std::alloc::{AllocError, Global};

/// How many bytes the instructions have from the first opcode to the second (JVMS 6.4). The switches and `wide` are left
/// out.
const LENGTHS: [(u8, u8, u32); 25] = [
    (0, 15, 1),
    (16, 16, 2),
    (17, 17, 3),
    (18, 18, 2),
    (19, 20, 3),
    (21, 25, 2),
    (26, 53, 1),
    (54, 58, 2),
    (59, 131, 1),
    (132, 132, 3),
    (133, 152, 1),
    (153, 168, 3),
    (169, 169, 2),
    (172, 177, 1),
    (178, 184, 3),
    (185, 185, 5),
    (187, 187, 3),
    (188, 188, 2),
    (189, 189, 3),
    (190, 191, 1),
    (192, 193, 3),
    (194, 195, 1),
    (197, 197, 4),
    (198, 199, 3),
    (200, 201, 5),
];

/// A `tableswitch` from -1 to 1, behind zero to three bytes of padding.
const TABLE: [u8; 28] = [
    170, 170, 170, 170, 0, 0, 0, 40, 255, 255, 255, 255, 0, 0, 0, 1, 0, 0, 0, 30, 255, 255, 255,
    251, 0, 1, 0, 0,
];

/// A `lookupswitch` with the keys -5 and 7, behind zero to three bytes of padding.
const PAIRS: [u8; 28] = [
    171, 171, 171, 171, 0, 0, 0, 40, 0, 0, 0, 2, 255, 255, 255, 251, 0, 0, 0, 30, 0, 0, 0, 7, 255,
    255, 255, 255,
];

/// Whether this stands at a place.
fn stands(code: &[u8], pc: u32, want: Result<(Insn, u32), CodeFault>) -> bool {
    code.len() < 65536 && decode_at(code, pc) == want
}

/// Whether the instruction at the start has so many bytes.
fn has_length(code: &[u8], length: u32) -> bool {
    if code.len() >= 65536 {
        return false;
    }
    match decode_at(code, 0) {
        Ok((_, found)) => found == length,
        Err(_) => false,
    }
}

/// Whether fewer bytes than so many cut the instruction at this place.
fn is_cut_before(code: &[u8], pc: u32, from: usize, length: usize) -> bool {
    for end in from..length {
        match code.get(..end) {
            Some(cut) => {
                if !stands(cut, pc, Err(CodeFault::Cut(pc))) {
                    return false;
                }
            }
            None => return false,
        }
    }
    true
}

#[test]
fn opcodes_have_their_lengths(rt: HostRuntime) {
    for (first, last, length) in LENGTHS {
        for op in first..=last {
            let code = [op, 1, 2, 3, 4, 5];
            assert!(rt; has_length(&code, length), "{op}");
            assert!(rt; is_cut_before(&code, 0, 0, length as usize), "{op}");
        }
    }
}

#[test]
fn other_bytes_are_no_opcodes(rt: HostRuntime) {
    for op in 202..=255 {
        assert!(rt; stands(&[op, 0], 0, Err(CodeFault::Opcode(0, op))), "{op}");
        assert_eq!(rt; mnemonic(op), "");
    }
    assert!(rt; stands(&[0xBA], 0, Err(CodeFault::Opcode(0, 186))));
    assert!(rt; stands(&[0, 0], 2, Err(CodeFault::Cut(2))));
}

/// What stands at the start, where `wide` is before the opcode and the operands are 258 and -2.
fn widened(op: u8) -> Result<(Insn, u32), CodeFault> {
    let (index, by, wide) = (258, -2, true);
    match op {
        21..=25 | 54..=58 | 169 => Ok((Insn::Local { op, index, wide }, 4)),
        132 => Ok((Insn::Iinc { index, by, wide }, 6)),
        _ => Err(CodeFault::Wide(0)),
    }
}

#[test]
fn wide_stands_before_few_opcodes(rt: HostRuntime) {
    for op in 0..=255 {
        let code = [196, op, 1, 2, 255, 254];
        assert!(rt; stands(&code, 0, widened(op)), "{op}");
        if let Ok((_, length)) = widened(op) {
            assert!(rt; is_cut_before(&code, 0, 0, length as usize), "{op}");
        }
    }
}

/// Whether the bytes are the instruction's, and are written again.
fn goes_both_ways(bytes: &[u8], insn: Insn) -> bool {
    if bytes.len() >= 8 {
        return false;
    }
    match decode_at(bytes, 0) {
        Err(_) | Ok((Insn::TableSwitch { .. } | Insn::LookupSwitch { .. }, _)) => false,
        Ok((found, size)) => {
            let length = length_of(&found);
            let mut out = [77; 8];
            let end = encode(&found, &mut out) as usize;
            found == insn
                && size == length
                && end == bytes.len()
                && &out[..end] == bytes
                && out[end] == 77
        }
    }
}

/// Instructions and their bytes.
const OPERANDS: [(&[u8], Insn); 14] = [
    (&[4], Insn::Plain(4)),
    (&[16, 128], Insn::Bipush(-128)),
    (&[17, 255, 254], Insn::Sipush(-2)),
    (&[18, 200], Insn::Pool { op: 18, index: 200 }),
    (&[19, 1, 0], Insn::Pool { op: 19, index: 256 }),
    (
        &[25, 255],
        Insn::Local {
            op: 25,
            index: 255,
            wide: false,
        },
    ),
    (
        &[132, 7, 255],
        Insn::Iinc {
            index: 7,
            by: -1,
            wide: false,
        },
    ),
    (
        &[167, 255, 253],
        Insn::Branch {
            op: 167,
            offset: -3,
        },
    ),
    (&[188, 10], Insn::NewArray(10)),
    (&[197, 0, 9, 2], Insn::Multi { index: 9, dims: 2 }),
    (
        &[200, 255, 254, 0, 2],
        Insn::Branch {
            op: 200,
            offset: -131070,
        },
    ),
    (
        &[196, 169, 1, 0],
        Insn::Local {
            op: 169,
            index: 256,
            wide: true,
        },
    ),
    (
        &[196, 132, 1, 0, 128, 1],
        Insn::Iinc {
            index: 256,
            by: -32767,
            wide: true,
        },
    ),
    (
        &[185, 1, 0, 3, 0],
        Insn::Interface {
            index: 256,
            count: 3,
            last: 0,
        },
    ),
];

#[test]
fn operands_are_read_and_written(rt: HostRuntime) {
    for (bytes, insn) in OPERANDS {
        assert!(rt; goes_both_ways(bytes, insn), "{bytes:?}");
    }
}

#[test]
fn switches_stand_behind_padding(rt: HostRuntime) {
    let table = 4;
    for pc in 0..4 {
        assert!(rt; stands(&TABLE, pc, Ok((Insn::TableSwitch { table }, 28 - pc))));
        assert!(rt; stands(&PAIRS, pc, Ok((Insn::LookupSwitch { table }, 28 - pc))));
        assert!(rt; is_cut_before(&TABLE, pc, 4, 28));
        assert!(rt; is_cut_before(&PAIRS, pc, 4, 28));
    }
}

/// Switches at 3 that are wrong or cut. From 1 to 0, and from the least number to the greatest: the
/// header comes before the table's length. Then -1 pairs, and 2^31 - 1 of them.
const WRONG_SWITCHES: [(&[u8], CodeFault); 6] = [
    (
        &[0, 0, 0, 170, 0, 0, 0, 0, 0, 0, 0, 1, 0, 0, 0, 0],
        CodeFault::Switch(3),
    ),
    (
        &[0, 0, 0, 170, 0, 0, 0, 0, 0, 0, 0, 1, 0, 0, 0],
        CodeFault::Cut(3),
    ),
    (
        &[0, 0, 0, 170, 0, 0, 0, 0, 128, 0, 0, 0, 127, 255, 255, 255],
        CodeFault::Cut(3),
    ),
    (
        &[0, 0, 0, 171, 0, 0, 0, 0, 255, 255, 255, 255],
        CodeFault::Switch(3),
    ),
    (
        &[0, 0, 0, 171, 0, 0, 0, 0, 255, 255, 255],
        CodeFault::Cut(3),
    ),
    (
        &[0, 0, 0, 171, 0, 0, 0, 0, 127, 255, 255, 255],
        CodeFault::Cut(3),
    ),
];

#[test]
fn wrong_switches_are_refused(rt: HostRuntime) {
    for (code, fault) in WRONG_SWITCHES {
        assert!(rt; stands(code, 3, Err(fault)), "{code:?}");
    }
}

/// A `lookupswitch` at 3 with these bytes as its first key, and the second key 2.
const fn two_keys(first: [u8; 4]) -> [u8; 28] {
    [
        0, 0, 0, 171, 0, 0, 0, 0, 0, 0, 0, 2, first[0], first[1], first[2], first[3], 0, 0, 0, 0,
        0, 0, 0, 2, 0, 0, 0, 0,
    ]
}

#[test]
fn keys_that_do_not_ascend_are_refused(rt: HostRuntime) {
    let found = Ok((Insn::LookupSwitch { table: 4 }, 25));
    assert!(rt; stands(&two_keys([255, 255, 255, 255]), 3, found));
    assert!(rt; stands(&two_keys([0, 0, 0, 0]), 3, found));
    assert!(rt; stands(&two_keys([0, 0, 0, 1]), 3, found));
    assert!(rt; stands(&two_keys([0, 0, 0, 2]), 3, Err(CodeFault::Switch(3))));
    assert!(rt; stands(&two_keys([0, 0, 0, 3]), 3, Err(CodeFault::Switch(3))));
}

/// The default, the lowest and the highest number and the offsets for 0 and 1 of a `tableswitch`.
fn table_of(code: &[u8], pc: u32) -> Option<(i32, i32, i32, i32, i32)> {
    if code.len() >= 65536 {
        return None;
    }
    match decode_at(code, pc) {
        Ok((Insn::TableSwitch { table }, _)) if table_count(code, table) == 3 => Some((
            switch_default(code, table),
            table_low(code, table),
            table_high(code, table),
            table_offset(code, table, 1),
            table_offset(code, table, 2),
        )),
        _ => None,
    }
}

/// The default, and each key of a `lookupswitch` with its offset.
fn pairs_of(code: &[u8], pc: u32) -> Option<(i32, i32, i32, i32, i32)> {
    if code.len() >= 65536 {
        return None;
    }
    match decode_at(code, pc) {
        Ok((Insn::LookupSwitch { table }, _)) if pair_count(code, table) == 2 => Some((
            switch_default(code, table),
            pair_key(code, table, 0),
            pair_offset(code, table, 0),
            pair_key(code, table, 1),
            pair_offset(code, table, 1),
        )),
        _ => None,
    }
}

#[test]
fn tables_are_queried(rt: HostRuntime) {
    assert_eq!(rt; table_of(&TABLE, 1), Some((40, -1, 1, -5, 65536)));
    assert_eq!(rt; pairs_of(&PAIRS, 2), Some((40, -5, 30, 7, -1)));
}

const MNEMONICS: [(u8, &str); 12] = [
    (0, "nop"),
    (4, "iconst_1"),
    (16, "bipush"),
    (25, "aload"),
    (53, "saload"),
    (58, "astore"),
    (95, "swap"),
    (131, "lxor"),
    (147, "i2s"),
    (166, "if_acmpne"),
    (185, "invokeinterface"),
    (201, "jsr_w"),
];

#[test]
fn opcodes_have_mnemonics(rt: HostRuntime) {
    for (op, name) in MNEMONICS {
        assert_eq!(rt; mnemonic(op), name);
    }
}

#[test]
fn faults_are_told(rt: HostRuntime) -> Result<(), AllocError> {
    let cases = [
        (CodeFault::Opcode(7, 186), "no opcode 186 at 7"),
        (CodeFault::Cut(0), "the code ends in the instruction at 0"),
        (CodeFault::Wide(3), "nothing to widen at 3"),
        (CodeFault::Switch(65534), "a wrong switch at 65534"),
    ];
    for (fault, text) in cases {
        assert_eq!(rt; format!(in rt.alloc(); "{fault}")?.as_str(), text);
    }
    Ok(())
}
