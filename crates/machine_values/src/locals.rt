//! The locals of a frame.

ghost use Rattle.std.specs.Prelude.{◌≡◌, ◌<◌, length, map, replicate, slice_get, slice_set, IfOk};
ghost use Rattle.std.specs.Option.{option_copied};
ghost use Rattle.machine_values.specs.declared.values.Local.TheVariants.{Unset};
ghost use Rattle.machine_values.specs.Stacks.{filled_local};

use crate::values::{Local, Ref};
use smallvec::SmallVec;
use std::alloc::{AllocError, Global};
use std::marker::Model;

/// The locals of a frame, whose number stays (JVMS 3.6.1).
#[derive(Drop)]
pub struct Locals {
    items: SmallVec<Local, 8>,
}

impl Model for Locals {
    ghost use Rattle.std.specs.Prelude.{List, ◌<◌, ◌^◌, length};
    ghost use Rattle.machine_values.specs.declared.values.Local.{Local as Kept};

    ghost Value = { List Kept };

    ghost view = { λ l. l.items.items };

    ghost invariant = { λ l. length l.items.items < 2 ^ 16 };
}

impl Local {
    fn filled_in(self, number: u64, object: Ref) -> Local
        ensures { result ≡ filled_local number object self }
    {
        match self {
            Local::Holds(value) => Local::Holds(value.filled_in(number, object)),
            _ => self,
        }
    }
}

// Each token of the number becomes the object.
#[tactic(auto, using(std::proofs::lemmas::List::take_all, std::proofs::lemmas::List::drop_all))]
fn fill_in(locals: &mut [Local], number: u64, object: Ref)
    ensures { locals.new ≡ map (filled_local number object) locals.old }
{
    for local in locals.iter_mut() {
        *local = local.filled_in(number, object);
    }
}

impl Locals {
    /// So many locals, to which nothing was stored.
    pub fn new(alloc: Global, count: u16) -> Result<Locals, AllocError>
        ensures { IfOk result (λ locals. locals ≡ replicate count Unset) }
    {
        let unset = vec![in alloc; Local::Unset; count as usize]?;
        let items = SmallVec::from_slice(alloc, unset.as_slice())?;
        Ok(Locals { items })
    }

    /// How many there are.
    pub fn len(&self) -> u16
        ensures { result ≡ length self.now }
    {
        self.items.as_slice().len() as u16
    }

    /// The locals, in their order.
    pub fn as_slice(&self) -> &[Local]
        ensures { result.now ≡ self.now }
    {
        self.items.as_slice()
    }

    /// Gives a local another content.
    pub fn set(&mut self, index: u16, local: Local)
        requires { index < length self.old }
        ensures { self.new ≡ slice_set self.old index local }
    {
        self.items.as_mut_slice()[index as usize] = local;
    }

    /// Every copy of the token of this number becomes the object. It takes no memory.
    pub fn fill_in(&mut self, number: u64, object: Ref)
        ensures { self.new ≡ map (filled_local number object) self.old }
    {
        fill_in(self.items.as_mut_slice(), number, object);
    }
}
