//! The laws, as contracts of functions that do nothing.

ghost use Rattle.std.specs.Prelude.{Some, List, [], ◌∷◌, ◌++◌, map, IsTrue};
ghost use Rattle.std.specs.List.{AllByRecursion, AllZip};
ghost use Rattle.class_file.specs.declared.types.ClassFile.{ClassFile};
ghost use Rattle.class_file.specs.Pool.{this_name};
ghost use Rattle.class_file.specs.FirstForm.{is_first_form};
ghost use Rattle.jp_model.specs.declared.first_aspect.FirstAspect.{FirstAspect};
ghost use Rattle.jp_model.specs.AspectText.{is_first_aspect, aspect_of};
ghost use Rattle.jp_model.specs.Headline.{AreApart, Behaves};
ghost use Rattle.woven_calls.specs.Woven.{IsWovenOrKept, aspect_class};

/// Woven classes, and those without a place where the advice applies as they were, run together with
/// the aspect's class as the join point machine does, from every entry method. No two have one name.
pub fn woven_behaves()
    ensures { (classes written : List ClassFile) (a : FirstAspect) → AllByRecursion (λ c. IsTrue (is_first_form c)) classes
        → IsTrue (is_first_aspect a) → AreApart (map this_name classes ++ Some a.name ∷ [])
        → AllZip (IsWovenOrKept a) classes written → Behaves classes (aspect_of a ∷ []) (written ++ aspect_class a ∷ []) }
{}

/// Without aspects the join point machine is the class machine.
pub fn no_aspect_behaves()
    ensures { (classes : List ClassFile) → Behaves classes [] classes }
{}
