//! The laws, as contracts of functions that do nothing.

ghost use Rattle.std.specs.Prelude.{◌≡◌, ◌<◌, ℕ, List, Some, length, map, IsTrue};
ghost use Rattle.std.specs.List.{AllByRecursion};
ghost use Rattle.class_file.specs.declared.types.ClassFile.{ClassFile};
ghost use Rattle.class_file.specs.WellFormed.{is_well_formed};
ghost use Rattle.class_heads.specs.Heads.{head_of};
ghost use Rattle.class_heads.specs.Hierarchy.{name_at, place_of};
ghost use Rattle.aj_names.specs.declared.types.MemberName.{MemberName};
ghost use Rattle.class_file.specs.Pool.{Reference};
ghost use Rattle.class_heads.specs.declared.types.ClassHead.{ClassHead};
ghost use Rattle.class_heads.specs.Numbers.{number_of, field_counts, IsNumbered};
ghost use Rattle.class_heads.specs.Searches.{MemberPlace, find_field};
ghost use Rattle.class_machine.specs.ClassFiles.{field_constant};
ghost use Rattle.class_machine.specs.Declarations.{declared_in, member_name, members_at, run_heads};
ghost use Rattle.class_machine.specs.Descriptors.{element_of};
ghost use Rattle.class_world.specs.Tables.{Known};
ghost use Rattle.machine_requests.specs.Statics.{IsField, AreApart};
ghost use Rattle.machine_requests.specs.Telling.{AreDistinct};
ghost use Rattle.machine_fields.specs.Settings.{field_name, world_setting};
ghost use Rattle.machine_fields.specs.FieldLaws.{IsFirstField, IsFound};

/// Fields of different numbers have different names.
pub fn fields_apart()
    ensures { (known : Known) (count : ℕ) → AreDistinct known.heads → AreApart count (world_setting known) }
{}

/// The field that a search finds is the first of its name and descriptor in its class.
pub fn found_is_first()
    ensures { (heads : List ClassHead) (place : ℕ) (member : MemberName) (m : MemberPlace) → find_field heads place member ≡ Some m → IsFound heads member m }
{}

/// Such a field has a number.
pub fn first_field_numbered()
    ensures { (heads : List ClassHead) (m : MemberPlace) → IsFirstField heads m → IsNumbered (field_counts heads) (number_of (field_counts heads) m) m }
{}

/// By that it has the name that its class gives it.
pub fn first_field_named()
    ensures { (heads : List ClassHead) (m : MemberPlace) (first : IsFirstField heads m) → field_name heads (number_of (field_counts heads) m) ≡ declared_in first.head.name first.field.name }
{}

/// The field that the machine finds for a reference is the one of its number.
pub fn found_is_field()
    ensures { (known : Known) (r : Reference) (place : ℕ) (m : MemberPlace) → members_at known.heads (length known.files) (field_constant known.files) r.class ≡ Some place → find_field known.heads place (member_name r.member) ≡ Some m
        → IsField r (number_of (field_counts known.heads) m) (element_of r.member.descriptor) (world_setting known) }
{}

/// The classes of well-formed files, and the library's behind them, are told apart by their names where
/// each has a name of its own.
pub fn program_is_distinct()
    ensures { (files : List ClassFile) (heads : List ClassHead) → heads ≡ run_heads (map head_of files) → ((place : ℕ) → place < length heads → place_of heads (name_at heads place) ≡ Some place)
        → AllByRecursion (λ c. IsTrue (is_well_formed c)) files → AreDistinct heads }
{}
