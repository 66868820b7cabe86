//! Operands of instructions: which entries of a pool they may name.

ghost use Rattle.std.specs.Prelude.{◌≡◌, min, map};
ghost use Rattle.class_file.specs.Pool as named;
ghost use Rattle.class_file.specs.Text as form;
ghost use Rattle.class_file.specs.Sound.{is_some_that};
ghost use Rattle.class_file.specs.Code as rule;
ghost use Rattle.class_rules.specs.Instructions.{as_placed};

use crate::instructions::Placed;
use class_file::{PoolEntry, class_at, entry_at};
use opcode_table::Insn;

// What `ldc` and `ldc_w` take: a class from Java 5, major 49, on.
fn is_narrow_constant(major: u16, pool: &[PoolEntry], index: u16) -> bool
    ensures { result ≡ is_some_that (rule.is_narrow_constant major) (named.entry_at pool.now index) }
{
    match entry_at(pool, index) {
        Some(PoolEntry::Integer(_) | PoolEntry::Float(_) | PoolEntry::String(_)) => true,
        Some(PoolEntry::Class(_)) => major >= 49,
        _ => false,
    }
}

// What `ldc2_w` takes.
fn is_wide_constant(pool: &[PoolEntry], index: u16) -> bool
    ensures { result ≡ is_some_that rule.is_wide_constant (named.entry_at pool.now index) }
{
    matches!(
        entry_at(pool, index),
        Some(PoolEntry::Long(_) | PoolEntry::Double(_))
    )
}

fn is_field(pool: &[PoolEntry], index: u16) -> bool
    ensures { result ≡ is_some_that rule.is_field_entry (named.entry_at pool.now index) }
{
    matches!(entry_at(pool, index), Some(PoolEntry::Fieldref(_, _)))
}

fn is_method(pool: &[PoolEntry], index: u16) -> bool
    ensures { result ≡ is_some_that rule.is_method_entry (named.entry_at pool.now index) }
{
    matches!(entry_at(pool, index), Some(PoolEntry::Methodref(_, _)))
}

fn is_interface_method(pool: &[PoolEntry], index: u16) -> bool
    ensures { result ≡ is_some_that rule.is_interface_entry (named.entry_at pool.now index) }
{
    matches!(
        entry_at(pool, index),
        Some(PoolEntry::InterfaceMethodref(_, _))
    )
}

fn is_class(pool: &[PoolEntry], index: u16) -> bool
    ensures { result ≡ is_some_that rule.is_class_entry (named.entry_at pool.now index) }
{
    matches!(entry_at(pool, index), Some(PoolEntry::Class(_)))
}

// How many `[` stand at the front.
fn dimensions(bytes: &[u8]) -> usize
    ensures { result ≡ form.dimensions bytes.now }
{
    bytes.iter().take_while(|b| **b == b'[').count()
}

// How many `[` stand at the front of a name, counted up to `most`.
fn dimensions_up_to(most: usize, name: &[u8]) -> usize
    ensures { result ≡ min most (form.dimensions name.now) }
{
    dimensions(&name[..most.min(name.len())])
}

// What `anewarray` takes: a class of which an array has at most 255 dimensions.
fn is_element(pool: &[PoolEntry], index: u16) -> bool
    ensures { result ≡ is_some_that rule.is_element_name (named.class_at pool.now index) }
{
    match class_at(pool, index) {
        Some(name) => dimensions_up_to(255, name) < 255,
        None => false,
    }
}

// What `multianewarray` takes: a class with so many dimensions, and at least one.
fn is_array(pool: &[PoolEntry], index: u16, dims: u8) -> bool
    ensures { result ≡ is_some_that (rule.has_dimensions dims) (named.class_at pool.now index) }
{
    match class_at(pool, index) {
        Some(name) => dims > 0 && dimensions_up_to(usize::from(dims), name) == usize::from(dims),
        None => false,
    }
}

fn is_pool_operand(major: u16, pool: &[PoolEntry], op: u8, index: u16) -> bool
    ensures { result ≡ rule.is_pool_operand major pool.now op index }
{
    match op {
        18 | 19 => is_narrow_constant(major, pool, index),
        20 => is_wide_constant(pool, index),
        178..=181 => is_field(pool, index),
        182..=184 => is_method(pool, index),
        189 => is_element(pool, index),
        _ => is_class(pool, index),
    }
}

fn has_operand(major: u16, pool: &[PoolEntry], insn: &Insn) -> bool
    ensures { result ≡ rule.has_operand major pool.now insn.now }
{
    match insn {
        Insn::Pool { op, index } => is_pool_operand(major, pool, *op, *index),
        Insn::Interface { index, .. } => is_interface_method(pool, *index),
        Insn::NewArray(code) => (4..12).contains(code),
        Insn::Multi { index, dims } => is_array(pool, *index, *dims),
        _ => true,
    }
}

/// The place of the first instruction with an operand of a wrong kind (JVMS 4.8.1).
pub(crate) fn operand_fault(major: u16, pool: &[PoolEntry], insns: &[Placed]) -> Option<u32>
    ensures { result ≡ rule.first_failing (λ p. rule.has_operand major pool.now p.insn) (map as_placed insns.now) }
{
    for placed in insns {
        if !has_operand(major, pool, &placed.insn) {
            return Some(placed.pc);
        }
    }
    None
}
