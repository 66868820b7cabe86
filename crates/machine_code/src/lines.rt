//! What stands at a place of a method's code.

ghost use Rattle.std.specs.Prelude.{◌≡◌, ℕ, ℤ, List, Some, IfSome};
ghost use Rattle.std.specs.Option.{option_map};
ghost use Rattle.class_file.specs.Pool.{Reference};
ghost use Rattle.class_machine.specs.ClassFiles as machine;
ghost use Rattle.class_machine.specs.Effect.{key_target};
ghost use Rattle.class_machine.specs.Operations.{Switch};
ghost use Rattle.machine_code.specs.Keys.{keys_at};
ghost use Rattle.machine_code.specs.Operations.{seen};
ghost use Rattle.machine_code.specs.Views.{code_seen, entry_seen};

use crate::method_code::{Line, MethodCode, MethodEntry};
use crate::operation::Operation;
use crate::operations::operation;
use crate::switches::target_of_key;
use crate::targets::{NOWHERE, offset_at, target_from};
use opcode_table::decode_at;

impl<'a> MethodCode<'a> {
    /// The instruction at a place, or `None` where none begins there, or where what it names isn't in
    /// the pool.
    pub fn operation_at(&self, pc: u32) -> Option<Operation>
        ensures { option_map (seen self.now.pool.now self.now.code.now.code) result ≡ option_map Some (machine.line_at pc (code_seen self.now)) }
    {
        match decode_at(self.code.code.as_slice(), pc) {
            Ok((insn, _)) => operation(self.pool, insn),
            Err(_) => None,
        }
    }

    /// The instruction at a place as `operation_at` gives it, with the place behind it.
    pub fn line_at(&self, pc: u32) -> Option<Line>
        ensures operation { option_map (λ line. seen self.now.pool.now self.now.code.now.code line.operation) result ≡ option_map Some (machine.line_at pc (code_seen self.now)) }
        ensures next { IfSome result (λ line. line.next ≡ machine.next_pc pc (Some (code_seen self.now))) }
    {
        match decode_at(self.code.code.as_slice(), pc) {
            Ok((insn, size)) => {
                let operation = operation(self.pool, insn)?;
                Some(Line {
                    operation,
                    next: pc + size,
                })
            }
            Err(_) => None,
        }
    }

    /// The place behind the instruction at a place, or that place itself where none begins there.
    pub fn next_place(&self, pc: u32) -> u32
        ensures { result ≡ machine.next_pc pc (Some (code_seen self.now)) }
    {
        match decode_at(self.code.code.as_slice(), pc) {
            Ok((_, size)) => pc + size,
            Err(_) => pc,
        }
    }

    /// The place of target number `i` of the instruction at a place, or a place past all code where it
    /// has none: of a switch the default's is 0, and those of its keys follow in their order.
    pub fn target(&self, pc: u32, i: u32) -> u32
        ensures { result ≡ machine.target_pc pc i (Some (code_seen self.now)) }
    {
        let code = self.code.code.as_slice();
        match decode_at(code, pc) {
            Ok((insn, _)) => target_from(pc, offset_at(code, insn, i)),
            Err(_) => NOWHERE,
        }
    }

    /// The place where the switch at a place leads with a key (JVMS 6, `tableswitch` and
    /// `lookupswitch`). An instruction without keys leads to its target number 0.
    pub fn switch_target(&self, pc: u32, key: i32) -> u32
        ensures target { result ≡ machine.target_pc pc (key_target (keys_at (code_seen self.now) pc) key 1) (Some (code_seen self.now)) }
        ensures keys { (keys : List ℤ) → machine.line_at pc (code_seen self.now) ≡ Some (Switch keys) → keys_at (code_seen self.now) pc ≡ keys }
    {
        let code = self.code.code.as_slice();
        match decode_at(code, pc) {
            Ok((insn, _)) => target_from(pc, offset_at(code, insn, target_of_key(code, insn, key))),
            Err(_) => NOWHERE,
        }
    }

    /// The operand slots and the locals that the code may use.
    pub fn entry(&self) -> MethodEntry
        ensures { (method : Reference) → entry_seen method result ≡ machine.entry_of method (code_seen self.now) }
    {
        MethodEntry {
            room: self.code.max_stack,
            locals: self.code.max_locals,
        }
    }
}
