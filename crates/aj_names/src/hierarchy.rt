//! What a reader of types asks of the classes that there are.

ghost use Rattle.std.specs.Prelude.{◌≡◌, ℕ, List, Bool, ◌∷◌, slice_get, IfSome, IsNone};
ghost use Rattle.std.specs.Option.{option_copied};
ghost use Rattle.std.specs.List.{Contains};
ghost use Rattle.aj_names.specs.Hierarchy.{IsNamed};

use crate::InternalName;

/// The classes and interfaces that there are, and their supertypes.
pub trait Hierarchy {
    /// The names of the classes and interfaces.
    ghost classes: { Self → List (List ℕ) };

    /// Whether a value of the first type is one of the second (JVMS 2.6.7).
    ghost subtypes: { Self → List ℕ → List ℕ → Bool };

    /// A class and its supertypes, each once.
    ghost supertypes: { Self → List ℕ → List (List ℕ) };

    /// The class whose name, with `/` as dots, is the package, a dot and the name, or the name alone
    /// where the package is empty, with the last `dollars` dots of the name read as `$`.
    fn find(&self, package: &[u8], name: &[u8], dollars: u32) -> Option<&InternalName>
        ensures known { IfSome result (λ class. Contains (classes self.now) class.now) }
        ensures named { IfSome result (λ class. IsNamed «package».now name.now dollars class.now) }
        ensures none { IsNone result → (class : List ℕ) → Contains (classes self.now) class → ¬ IsNamed «package».now name.now dollars class };

    /// Whether a value of type `low` is one of type `high`.
    fn is_subtype(&self, low: &InternalName, high: &InternalName) -> bool
        ensures { result ≡ subtypes self.now low.now high.now };

    /// The entry at `index` of the list of the class and its supertypes. An unknown class and an
    /// array descriptor have none.
    fn supertype(&self, low: &InternalName, index: u32) -> Option<&InternalName>
        ensures entry { option_copied result ≡ slice_get (supertypes self.now low.now) index }
        ensures unknown { ¬ Contains (classes self.now) low.now → IsNone result }
        ensures array { slice_get low.now 0 ≡ Some 91 → IsNone result };
}
