//! Branches and what they are widened to.

ghost use Rattle.std.specs.Prelude.{◌≡◌, true};
ghost use Rattle.code_layout.specs.Places.{is_test, is_short, opposite, branch_size};

use opcode_table::{Form, form_of};

pub(crate) const GOTO: u8 = 167;

pub(crate) const JSR: u8 = 168;

pub(crate) const GOTO_W: u8 = 200;

pub(crate) const JSR_W: u8 = 201;

/// Whether the offset of a branch has two bytes (JVMS 6.4).
pub(crate) fn is_short(op: u8) -> bool
    ensures { result ≡ is_short op }
{
    match form_of(op) {
        Some(Form::Branch) => true,
        _ => false,
    }
}

/// Whether a branch is a test.
pub(crate) fn is_test(op: u8) -> bool
    ensures { result ≡ is_test op }
{
    op != GOTO && op != JSR
}

#[tactic(auto, using(crate::proofs::Branches::short_some))]
/// The test that holds where another does not: they stand in pairs (JVMS 9).
pub(crate) fn opposite(op: u8) -> u8
    requires { is_short op ≡ true }
    ensures { result ≡ opposite op }
{
    if (op % 2 == 1 && op <= 166) || op == 198 {
        op + 1
    } else {
        op - 1
    }
}

/// How many bytes a branch has; a widened test is the opposite test over a `goto_w`.
pub(crate) fn branch_size(wide: bool, op: u8) -> u64
    ensures { result ≡ branch_size wide op }
{
    if wide {
        if is_test(op) { 8 } else { 5 }
    } else if is_short(op) {
        3
    } else {
        5
    }
}
