//! What instructions name in the constant pool, beside what `class_file` finds there (JVMS 4.4.2).

ghost use Rattle.std.specs.Prelude.{◌≡◌};
ghost use Rattle.std.specs.Option.{option_map};
ghost use Rattle.class_file.specs.Lookup.{reference_seen};
ghost use Rattle.class_machine.specs.ClassFiles as machine;

use class_file::{PoolEntry, Reference, class_at, entry_at, method_at, named_type_at};
use class_machine::kinds::Mode;

/// The method of an interface that the index names, or `None` where it names none (JVMS 4.4.2).
pub fn interface_method_at(pool: &[PoolEntry], index: u16) -> Option<Reference<'_>>
    ensures { option_map reference_seen result ≡ machine.interface_method_at pool.now index }
{
    match entry_at(pool, index) {
        Some(PoolEntry::InterfaceMethodref(class, member)) => {
            let class = class_at(pool, *class)?;
            let member = named_type_at(pool, *member)?;
            Some(Reference { class, member })
        }
        _ => None,
    }
}

/// The method that an instruction names: one of an interface for `invokeinterface`, one of a class for
/// the others (JVMS 6, `invokeinterface` to `invokevirtual`).
pub fn invoked(pool: &[PoolEntry], index: u16, mode: Mode) -> Option<Reference<'_>>
    ensures { option_map reference_seen result ≡ machine.invoked pool.now index mode }
{
    match mode {
        Mode::Interface => interface_method_at(pool, index),
        _ => method_at(pool, index),
    }
}
