//! The laws, as contracts of functions that do nothing.

ghost use Rattle.std.specs.Prelude.{◌≡◌, ℕ, Bool, Option, Some, List, IsTrue};
ghost use Rattle.std.specs.List.{AllByRecursion};
ghost use Rattle.aj_names.specs.declared.types.MemberName.{MemberName};
ghost use Rattle.class_file.specs.declared.types.ClassFile.{ClassFile};
ghost use Rattle.class_file.specs.WellFormed.{is_well_formed};
ghost use Rattle.class_heads.specs.declared.types.ClassHead.{ClassHead};
ghost use Rattle.class_heads.specs.Faults.{world_heads, IsLibrary, IsSound};
ghost use Rattle.class_heads.specs.Searches.{MemberPlace, in_class, method_in, find_method, select};
ghost use Rattle.class_heads.specs.Numbers.{number_of, IsNumbered, method_counts};
ghost use Rattle.class_file.specs.Pool.{Reference};
ghost use Rattle.class_machine.specs.Values.{Held};
ghost use Rattle.class_machine.specs.ClassFiles.{MethodCode, method_code};
ghost use Rattle.class_machine.specs.Declarations as run;
ghost use Rattle.machine_code.specs.Programs.{IsFirst, IsProgram, method_name};
ghost use Rattle.machine_code.specs.CodeLaws.{Gives, method_seen};

/// The classes of a sound world are a program.
pub fn sound_is_program()
    ensures { (files : List ClassFile) (library : List ClassHead) (woven : Bool) → IsLibrary library → IsSound files library woven
        → AllByRecursion (λ c. IsTrue (is_well_formed c)) files → IsProgram files (world_heads files library woven) }
{}

/// The method that a class declares itself is the first of its name and descriptor there.
pub fn declared_is_first()
    ensures { (heads : List ClassHead) (member : MemberName) (class position : ℕ) → method_in heads member class ≡ Some position
        → IsFirst heads (in_class class position) }
{}

/// So is the one that a search finds.
pub fn found_is_first()
    ensures { (heads : List ClassHead) (class : ℕ) (member : MemberName) (m : MemberPlace) → find_method heads class member ≡ Some m → IsFirst heads m }
{}

/// So is the one that is selected where such a one was found.
pub fn selected_is_first()
    ensures { (heads : List ClassHead) (runtime : ℕ) (found m : MemberPlace) → IsFirst heads found → select heads runtime found ≡ Some m → IsFirst heads m }
{}

/// Such a method has a number.
pub fn first_is_numbered()
    ensures { (heads : List ClassHead) (m : MemberPlace) → IsFirst heads m → IsNumbered (method_counts heads) (number_of (method_counts heads) m) m }
{}

/// What the code of class files gives at a method's places is what the method's code gives.
pub fn code_gives()
    ensures { (files : List ClassFile) (r : Reference) (m : MethodCode) → method_code files r ≡ Some m → Gives files r m }
{}

/// The class machine finds such a method at its place.
pub fn first_is_found()
    ensures { (heads : List ClassHead) (given : ℕ) (constant : Reference → Option Held) (place : MemberPlace) (first : IsFirst heads place)
        → run.method_at heads given constant place ≡ Some (method_seen heads given constant place first) }
{}

/// It has the name by which its code is found.
pub fn first_is_named()
    ensures { (heads : List ClassHead) (given : ℕ) (constant : Reference → Option Held) (place : MemberPlace) (first : IsFirst heads place)
        → method_name heads place ≡ (method_seen heads given constant place first).name }
{}
