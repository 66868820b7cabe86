//! Exception tables (JVMS 3.10, 4.7.3).

ghost use Rattle.std.specs.Prelude.{◌≡◌, ◌≤◌, ◌<◌, length, IfSome};
ghost use Rattle.std.specs.Option.{option_copied};
ghost use Rattle.class_file.specs.Pool.{Reference};
ghost use Rattle.class_machine.specs.ClassFiles as machine;
ghost use Rattle.machine_code.specs.Views.{code_seen, handlers_from, first_and_rest};

use crate::method_code::MethodCode;
use class_file::{ExceptionEntry, PoolEntry, class_at};

/// An entry of an exception table that covers a place: what it catches, and where control goes.
#[derive(Clone, Copy, Debug)]
pub struct Handler<'a> {
    /// The name of the class that it catches, or `None` where it catches all.
    pub catch: Option<&'a [u8]>,
    pub pc: u32,
    /// The number of the entry behind it.
    pub next: usize,
}

// Whether the entry covers the place: from its start to before its end.
fn covers(pc: u32, entry: &ExceptionEntry) -> bool
    ensures { result ≡ machine.covers pc entry.now }
{
    u32::from(entry.start) <= pc && pc < u32::from(entry.end)
}

// The name of the class that a catch type stands for, and none where it is 0.
fn catch_of(pool: &[PoolEntry], index: u16) -> Option<&[u8]>
    ensures { option_copied result ≡ machine.catch_of pool.now index }
{
    if index == 0 {
        return None;
    }
    match class_at(pool, index) {
        Some(name) => Some(name),
        None => Some(&[]),
    }
}

impl<'a> MethodCode<'a> {
    /// The first entry of the exception table, from entry number `from` on, that covers the place. From
    /// 0 on, and then from each entry's `next` on, these are all that cover it, in their order.
    pub fn handler_from(&self, pc: u32, from: usize) -> Option<Handler<'a>>
        ensures entries { (method : Reference) → handlers_from method pc (code_seen self.now) from ≡ first_and_rest method pc (code_seen self.now) result }
        ensures all { (method : Reference) → from ≡ 0 → handlers_from method pc (code_seen self.now) from ≡ machine.handlers_at method pc (Some (code_seen self.now)) }
        ensures later { IfSome result (λ h. from < h.next) }
        ensures within { IfSome result (λ h. h.next ≤ length self.now.code.now.entries) }
    {
        let entries = self.code.entries.as_slice();
        for number in from..entries.len() {
            let entry = &entries[number];
            if covers(pc, entry) {
                return Some(Handler {
                    catch: catch_of(self.pool, entry.catch_type),
                    pc: u32::from(entry.handler),
                    next: number + 1,
                });
            }
        }
        None
    }
}
