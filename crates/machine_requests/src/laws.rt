//! The laws, as contracts of functions that do nothing.

ghost use Rattle.std.specs.Prelude.{◌≡◌, ◌<◌, ◌==◌, ℕ, true, List, [], ◌++◌, map, length, slice_get, Some, None, unwrap_or};
ghost use Rattle.std.specs.List.{AllByRecursion};
ghost use Rattle.aj_names.specs.declared.ids.ClassId.{ClassId as ClassIdOf};
ghost use Rattle.aj_names.specs.declared.types.FieldType.{FieldType};
ghost use Rattle.class_file.specs.Pool.{Reference};
ghost use Rattle.class_file.specs.Text.{is_class_name};
ghost use Rattle.class_heads.specs.declared.types.ClassHead.{ClassHead};
ghost use Rattle.class_machine.specs.ClassFiles.{Place};
ghost use Rattle.class_machine.specs.Machine.{State};
ghost use Rattle.class_machine.specs.Values as machine;
ghost use Rattle.class_machine.specs.World as worlds;
ghost use Rattle.machine_values.specs.declared.content.Content.{Content};
ghost use Rattle.machine_values.specs.declared.frames.Frame.{Frame};
ghost use Rattle.machine_values.specs.declared.names.Maker.{Maker};
ghost use Rattle.machine_values.specs.declared.names.Name.{Name};
ghost use Rattle.machine_values.specs.declared.content.Content.TheVariants.{Text};
ghost use Rattle.machine_values.specs.declared.names.Maker.TheVariants.{Class};
ghost use Rattle.machine_values.specs.declared.names.Name.TheVariants.{Literal, Made};
ghost use Rattle.machine_values.specs.declared.state.Due.{Due};
ghost use Rattle.machine_values.specs.declared.state.MachineState.{MachineState};
ghost use Rattle.machine_values.specs.declared.values.Value.{Value};
ghost use Rattle.machine_values.specs.NumberLaws.{IsTold};
ghost use Rattle.machine_values.specs.Standing.{AreNumbered, IsSettledContent, held, machine_name, maker_name, name_in, object_of};
ghost use Rattle.machine_values.specs.States.{is_known, machine_frame, machine_due, IsFrameWithin, IsDueWithin, Represents};
ghost use Rattle.machine_values.specs.Things.{Things, changed, is_constant, with_constant, with_made};
ghost use Rattle.machine_values.specs.declared.values.Value.TheVariants.{Null};
ghost use Rattle.machine_requests.specs.Objects.{IsClass, StaysFilled, field_place, fields_at};
ghost use Rattle.machine_requests.specs.Texts.{text_seen};
ghost use Rattle.machine_requests.specs.Shares.{HasFrames, Others, Setting, Shares, others_of};
ghost use Rattle.machine_requests.specs.Telling.{AreDistinct, AreFit, is_fit, is_fit_maker, is_plain};

/// Of classes with names of their own, two places of a heap have the same object only if they are the
/// same.
pub fn places_tell()
    ensures { (heads : List ClassHead) (names : List Name) → AreDistinct heads → AreNumbered [] names → AreFit (length heads) names → (a b : ℕ) → a < length names → b < length names
        → machine.same_name (name_in heads (slice_get names a)) (name_in heads (slice_get names b)) ≡ (a == b) }
{}

/// The names of classes that class files have are plain: none has a `;` or a `[` (JVMS 4.2).
pub fn class_names_are_plain()
    ensures { (name : List ℕ) → is_class_name name ≡ true → is_plain name ≡ true }
{}

/// The name of a class or an array type tells it from those of all objects.
pub fn makers_tell()
    ensures { (heads : List ClassHead) → AreDistinct heads → (maker : Maker) (names : List Name) → is_fit_maker (length heads) maker ≡ true → AreFit (length heads) names
        → AllByRecursion (IsTold heads maker) names }
{}

/// Values stand for the same when objects are added.
pub fn values_stay()
    ensures { (heads : List ClassHead) (names more : List Name) (v : Value) → is_known (length names) v ≡ true → held heads (names ++ more) v ≡ held heads names v }
{}

/// Frames stand for the same when objects are added.
pub fn frames_stay()
    ensures { (heads : List ClassHead) (names more : List Name) (methods : ℕ → Reference) (frames : List Frame) → AllByRecursion (IsFrameWithin (length names)) frames
        → map (machine_frame heads methods (names ++ more)) frames ≡ map (machine_frame heads methods names) frames }
{}

/// What is due stands for the same when objects are added.
pub fn due_stays()
    ensures { (heads : List ClassHead) (names more : List Name) (methods : ℕ → Reference) (due : Due) → IsDueWithin (length names) due
        → machine_due heads methods (names ++ more) due ≡ machine_due heads methods names due }
{}

/// A state is that of the machine by its parts.
pub fn represents()
    ensures { (s : Setting) (methods : ℕ → Reference) (state : MachineState) (t : State Place) → Shares s state.heap (others_of state) t.world → HasFrames s.heads methods state t
        → Represents s.heads s.classes.fields methods s.field_names state t }
{}

/// The heap with the next object of a class or array type stands for the world with the next object.
pub fn make_shares()
    ensures { (s : Setting) (things : Things) (others : Others) (w : worlds.World) (maker : Maker) (c : Content) → AreDistinct s.heads → Shares s things others w
        → is_fit_maker (length s.heads) maker ≡ true → IsSettledContent (length things.names) c
        → Shares s (with_made things maker c).1 others (worlds.add w (maker_name s.heads maker) (object_of s.heads s.classes.fields things.names maker c)).1 }
{}

/// The heap with the String of a literal, or with the object of a class, stands for the same world.
pub fn constant_shares()
    ensures { (s : Setting) (things : Things) (others : Others) (w : worlds.World) (name : Name) → AreDistinct s.heads → Shares s things others w
        → is_constant name ≡ true → is_fit (length s.heads) name ≡ true → Shares s (with_constant things name).1 others w }
{}

/// The heap where an object holds something else stands for the world where it does.
pub fn store_shares()
    ensures { (s : Setting) (things : Things) (others : Others) (w : worlds.World) (at : ℕ) (maker : Maker) (k : ℕ) (c : Content) → AreDistinct s.heads → Shares s things others w
        → slice_get things.names at ≡ Some (Made maker k) → IsSettledContent (length things.names) c
        → Shares s (changed things at c) others (record w { heap = worlds.with_changed w.heap (machine_name s.heads (Made maker k)) (object_of s.heads s.classes.fields things.names maker c) }) }
{}

/// Objects have their fields still when the String of a literal is added.
pub fn literal_filled()
    ensures { (things : Things) (units : List ℕ) (s : Setting) → StaysFilled things (with_constant things (Literal units)).1 s }
{}

/// Or a text.
pub fn text_filled()
    ensures { (things : Things) (class : ClassIdOf) (types : List FieldType) (units : List ℕ) (s : Setting) → IsClass class.0 true types s → StaysFilled things (with_made things (Class class) (Text units)).1 s }
{}

/// What the machine reads of a field of an object is the value at the field's place; it reads null of a
/// field that objects of the class lack.
pub fn fields_read()
    ensures there { (s : Setting) (things : Things) (others : Others) (w : worlds.World) (at p : ℕ) (r : Reference) → AreDistinct s.heads → Shares s things others w → at < length things.names
        → field_place (s.classes.fields (machine.class_of (name_in s.heads (slice_get things.names at)))) r ≡ Some p → worlds.read_field w (name_in s.heads (slice_get things.names at)) r ≡ held s.heads things.names (unwrap_or (slice_get (fields_at things at) p) Null) }
    ensures none { (s : Setting) (things : Things) (others : Others) (w : worlds.World) (at : ℕ) (r : Reference) → AreDistinct s.heads → Shares s things others w → at < length things.names
        → field_place (s.classes.fields (machine.class_of (name_in s.heads (slice_get things.names at)))) r ≡ None → worlds.read_field w (name_in s.heads (slice_get things.names at)) r ≡ machine.Null }
{}

/// The text that the machine reads of an object is that of the heap.
pub fn texts_read()
    ensures { (s : Setting) (things : Things) (others : Others) (w : worlds.World) (at : ℕ) → AreDistinct s.heads → Shares s things others w → at < length things.names
        → worlds.units_at w (name_in s.heads (slice_get things.names at)) ≡ text_seen (slice_get things.names at) (slice_get things.contents at) }
{}
