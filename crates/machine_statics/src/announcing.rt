//! Objects are announced (JVMS 6, `new`).

ghost use Rattle.std.specs.Prelude.{◌≡◌, ◌||◌, not, List, ℕ, IfOk, IfSome, OnErr, MatchOption, false};
ghost use Rattle.class_machine.specs.Classes.{dotted};
ghost use Rattle.class_machine.specs.Declarations.{has_objects};
ghost use Rattle.class_machine.specs.Operations.{New};
ghost use Rattle.machine_steps.specs.Executing.{executes};
ghost use Rattle.machine_steps.specs.Moves.{Moves};
ghost use Rattle.machine_steps.specs.Programs.{IsRunnable};
ghost use Rattle.machine_steps.specs.Runs.{IsFormed};
ghost use Rattle.machine_invocations.specs.Keeping.{Keeps};
ghost use Rattle.machine_invocations.specs.Methods.{classes_in};
ghost use Rattle.machine_statics.specs.Announcing.{FindsClass, NumbersNext, IsNext};
ghost use Rattle.machine_statics.specs.Tops.{PutsOn};
ghost use Rattle.machine_statics.specs.Triggers.{MovesWhere, takes};

use crate::operands::has_room;
use aj_names::{ClassId, Items};
use class_heads::ClassHead;
use class_machine::kinds::Kind;
use class_world::World;
use machine_frames::next_number;
use machine_invocations::{begin, take_back};
use machine_steps::Step;
use machine_values::{Ending, MachineState, Value};
use std::alloc::{AllocError, Global};

// Whether the class has objects: it is no interface, and not abstract (JVMS 4.1).
fn has_objects(head: &ClassHead) -> bool
    ensures { result ≡ has_objects head.now }
{
    head.flags.0 & 0x0200 != 0x0200 && head.flags.0 & 0x0400 != 0x0400
}

// The class of the name, where it has objects.
fn find_class(world: &World, name: &[u8]) -> Option<ClassId>
    ensures { FindsClass world.now name.now result }
{
    let class = world.class_named(name)?;
    if has_objects(world.head(class)) {
        Some(class)
    } else {
        None
    }
}

// The name with dots for its slashes.
fn dotted(alloc: Global, name: &[u8]) -> Result<Vec<u8>, AllocError>
    ensures { IfOk result (λ text. text.items ≡ dotted name.now) }
{
    name.iter()
        .map(|b| if *b == b'/' { b'.' } else { *b })
        .collect(alloc)
}

// The same, as an ending has it.
fn class_text(alloc: Global, name: &[u8]) -> Result<Items<u8>, AllocError>
    ensures { IfOk result (λ text. text ≡ dotted name.now) }
{
    let text = dotted(alloc, name)?;
    Ok(Items::from_vec(text))
}

// The number of the running frame's next token.
fn number_of_next(state: &MachineState) -> Option<u64>
    ensures { IfSome result (λ number. NumbersNext state.now number) }
{
    let frame = state.frames.last()?;
    next_number(frame)
}

// Puts the value on top of the running frame's operands, and says whether there was room.
fn put_on(state: &mut MachineState, value: Value) -> bool
    ensures { PutsOn state.old value state.new result }
{
    let count = state.frames.len();
    if count < 1 {
        return false;
    }
    let top = count - 1;
    state.frames[top].operands.push(value)
}

// The running frame goes on behind the instruction, with the token of this number on top.
fn announce(state: &mut MachineState, world: &World, class: ClassId, number: u64) -> Step
    requires runnable { IsRunnable world.now }
    requires formed { IsFormed world.now state.old }
    ensures formed { IsFormed world.now state.new }
    ensures moves { (name : List ℕ) → MovesWhere world.now (IsNext name class.0 number) state.old state.new result (takes (New name)) }
{
    if put_on(state, Value::Token(class, number)) {
        take_back(state, world, false, None)
    } else {
        Step::Ended(Ending::Broken)
    }
}

/// A token of an object of the class goes on top, once the class is initialised (JVMS 6, `new`). A
/// class that isn't there, or that has no objects, is unresolved.
///
/// # Errors
/// Where there is no memory, or no number is left for the token; the state stands for what it stood for
/// then.
pub fn new_object(state: &mut MachineState, world: &World, class: &[u8]) -> Result<Step, AllocError>
    requires runnable { IsRunnable world.now }
    requires formed { IsFormed world.now state.old }
    ensures formed { IsFormed world.now state.new }
    ensures moves { IfOk result (λ step. Moves world.now state.old state.new step (executes (New class.now))) }
    ensures err { OnErr result (Keeps world.now state.old state.new) }
{
    if !has_room(state, Kind::Reference) {
        return Ok(Step::Ended(Ending::Broken));
    }
    let Some(found) = find_class(world, class) else {
        let text = class_text(*state.frames.allocator(), class)?;
        return Ok(Step::Ended(Ending::Unresolved(text)));
    };
    let Some(number) = number_of_next(state) else {
        return Err(AllocError);
    };
    let pending = begin(state, world, found)?;
    if pending {
        return Ok(Step::Went);
    }
    Ok(announce(state, world, found, number))
}
