//! Initialisers of classes (JVMS 2.17.4, 5.5).

ghost use Rattle.std.specs.Prelude.{◌≡◌, ◌<◌, [], ◌∷◌, ◌++◌, ℕ, List, codes, length, slice_index_or, false, IfSome, IfOk, OnOk, OnErr};
ghost use Rattle.std.specs.List.{sum};
ghost use Rattle.std.specs.Option.{option_map, option_to_list};
ghost use Rattle.class_heads.specs.Hierarchy.{name_at};
ghost use Rattle.class_heads.specs.Numbers.{number_of, method_counts};
ghost use Rattle.class_heads.specs.Searches.{in_class, method_in};
ghost use Rattle.class_world.specs.Tables.{Known};
ghost use Rattle.class_machine.specs.Classes.{marked};
ghost use Rattle.class_machine.specs.ClassFiles.{Place};
ghost use Rattle.class_machine.specs.Machine.{State};
ghost use Rattle.machine_values.specs.declared.script.Answer.{Answer};
ghost use Rattle.machine_steps.specs.Programs.{IsRunnable, Machine, IsMachine};
ghost use Rattle.machine_steps.specs.Runs.{IsFormed, Runs};
ghost use Rattle.machine_invocations.specs.Keeping.{Keeps, IsSame};
ghost use Rattle.machine_invocations.specs.Selections.{member_named};
ghost use Rattle.machine_invocations.specs.Initialising.{IsInitialiser, HasInitialiser, AreOwn, AddsPending, AddsFrames, ArePending, Begins, HasBegun, names_upward};

use crate::methods::is_static;
use crate::selection::superclass_of;
use aj_names::{ClassId, Items, MethodId};
use class_world::World;
use machine_code::{MethodCode, code_of};
use machine_values::{Frame, Locals, MachineState, Operands, Purpose};
use std::alloc::{AllocError, Global};

// The initialiser that the class declares.
fn clinit_of(world: &World, class: ClassId) -> Option<MethodId>
    requires { class.0 < length world.now.heads }
    ensures number { option_map (λ method. method.0) result ≡ option_map (λ position. number_of (method_counts world.now.heads) (in_class class.0 position)) (method_in world.now.heads (member_named (codes "<clinit>") (codes "()V")) class.0) }
    ensures within { IfSome result (λ method. method.0 < sum (method_counts world.now.heads)) }
{
    world.declared_method(class, b"<clinit>".as_slice(), b"()V".as_slice())
}

// The class's own initialiser, where it is static and has code (JVMS 3.9).
fn initialiser_of(world: &World, class: ClassId) -> Option<(MethodId, MethodCode<'_>)>
    requires runnable { IsRunnable world.now }
    requires class { class.0 < length world.now.heads }
    ensures { IsInitialiser world.now class.0 result }
{
    let Some(method) = clinit_of(world, class) else {
        return None;
    };
    if !is_static(world, method) {
        return None;
    }
    let Some(code) = code_of(world, method) else {
        return None;
    };
    Some((method, code))
}

// A frame of the class's initialiser, as it begins.
fn initialiser_frame(
    alloc: Global,
    class: ClassId,
    method: MethodId,
    code: MethodCode<'_>,
) -> Result<Frame, AllocError>
    ensures { IfOk result (λ frame. (k : Known) → HasInitialiser k class.0 method.0 code.entry → AreOwn k class.0 (frame ∷ [])) }
{
    let entry = code.entry();
    let operands = Operands::new(alloc, entry.room)?;
    let locals = Locals::new(alloc, entry.locals)?;
    Ok(Frame {
        method,
        pc: 0,
        operands,
        locals,
        monitor: None,
        constructed: false,
        purpose: Purpose::Initialises(class),
    })
}

// A frame of the class's own initialiser, if it has one.
fn initialiser(alloc: Global, world: &World, class: ClassId) -> Result<Option<Frame>, AllocError>
    requires runnable { IsRunnable world.now }
    requires class { class.0 < length world.now.heads }
    ensures { IfOk result (λ frame. AreOwn world.now class.0 (option_to_list frame)) }
{
    match initialiser_of(world, class) {
        None => Ok(None),
        Some((method, code)) => {
            let frame = initialiser_frame(alloc, class, method, code)?;
            Ok(Some(frame))
        }
    }
}

fn has_begun(begun: &[bool], class: ClassId) -> bool
    ensures { result ≡ slice_index_or begun.now class.0 false }
{
    match begun.get(class.0 as usize) {
        Some(has) => *has,
        None => false,
    }
}

// Puts the frame of the class's own initialiser on top, where its initialisation hasn't begun and it
// has one.
fn add_pending(
    frames: &mut Vec<Frame>,
    world: &World,
    begun: &[bool],
    class: ClassId,
) -> Result<(), AllocError>
    requires runnable { IsRunnable world.now }
    requires class { class.0 < length world.now.heads }
    ensures { OnOk result (AddsPending world.now begun.now class.0 frames.old.items frames.new.items) }
{
    if has_begun(begun, class) {
        return Ok(());
    }
    let alloc = *frames.allocator();
    let own = initialiser(alloc, world, class)?;
    match own {
        Some(frame) => {
            frames.push(frame)?;
            Ok(())
        }
        None => Ok(()),
    }
}

// The frames of the initialisers that are pending at a trigger of the class: of it and its
// superclasses, those that haven't begun, the highest class's last.
fn pending(
    alloc: Global,
    world: &World,
    begun: &[bool],
    class: ClassId,
) -> Result<Vec<Frame>, AllocError>
    requires runnable { IsRunnable world.now }
    requires class { class.0 < length world.now.heads }
    ensures { IfOk result (λ frames. ArePending world.now begun.now class.0 frames.items) }
{
    let mut frames = Vec::new(alloc);
    let mut at = class;
    'upward: for _turn in 0..world.classes() {
        add_pending(&mut frames, world, begun, at)?;
        match superclass_of(world, at) {
            Some(above) => at = above,
            None => return Ok(frames),
        }
    }
    Ok(frames)
}

// Marks the class and its superclasses as begun.
fn mark(begun: &mut Items<bool>, world: &World, class: ClassId)
    requires runnable { IsRunnable world.now }
    requires class { class.0 < length world.now.heads }
    requires begun { length begun.old ≡ length world.now.heads }
    ensures len { length begun.new ≡ length begun.old }
    ensures marked { (others : List (List ℕ)) → HasBegun world.now begun.old others → HasBegun world.now begun.new (marked others (names_upward world.now class.0)) }
{
    let mut at = class;
    'upward: for _turn in 0..world.classes() {
        begun.set(at.0 as usize, true);
        match superclass_of(world, at) {
            Some(above) => at = above,
            None => return,
        }
    }
}

// Puts frames on top of others, the last one topmost.
fn put_frames(frames: &mut Vec<Frame>, fresh: Vec<Frame>) -> Result<(), AllocError>
    ensures ok { OnOk result (frames.new.items ≡ frames.old.items ++ fresh.items) }
    ensures err { OnErr result (frames.new.items ≡ frames.old.items) }
{
    let mut fresh = fresh;
    frames.append(&mut fresh)
}

/// Gives frames to the initialisers that are pending at a trigger of the class, and marks it and its
/// superclasses as begun; says whether any was pending (JVMS 2.17.4).
///
/// # Errors
/// Where there is no memory; the state is as it was then.
pub fn begin(state: &mut MachineState, world: &World, class: ClassId) -> Result<bool, AllocError>
    requires runnable { IsRunnable world.now }
    requires formed { IsFormed world.now state.old }
    requires class { class.0 < length world.now.heads }
    ensures begun { IfOk result (λ some. (m : Machine) (answers : List Answer) (t : State Place) → IsMachine world.now m → Runs m state.old answers t → Begins m state.new answers t (name_at world.now.heads class.0) some) }
    ensures rest { state.new ≡ record state.old { frames = state.new.frames; begun = state.new.begun } }
    ensures formed { IsFormed world.now state.new }
    ensures added { IfOk result (λ some. AddsFrames state.old state.new some) }
    ensures err { OnErr result (Keeps world.now state.old state.new) }
    ensures same { OnErr result (IsSame state.old state.new) }
{
    let alloc = *state.frames.allocator();
    let fresh = pending(alloc, world, state.begun.as_slice(), class)?;
    let some = !fresh.is_empty();
    put_frames(&mut state.frames, fresh)?;
    mark(&mut state.begun, world, class);
    Ok(some)
}
