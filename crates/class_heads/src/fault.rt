//! What is wrong with a world of classes.

ghost use Rattle.std.specs.Prelude.{◌≡◌};
ghost use Rattle.class_heads.specs.declared.fault.WorldFault.TheVariants.{Memory};

use aj_names::InternalName;
use std::alloc::{AllocError, AllocFailed};
use thiserror::Error;

/// Why classes make no world. The first kind in this order that there is counts, and of it the least
/// class name in the order of its bytes.
#[derive(Debug, Drop, PartialEq, Eq, Error)]
pub enum WorldFault {
    /// Two given classes have the name, or a given one and one of the library.
    #[error("two classes have one name")]
    Duplicate(InternalName),
    /// The class declares or refers to a name that is kept for what is woven.
    #[error("a class takes a reserved name")]
    Reserved(InternalName),
    /// The superclass or an interface of the class is neither given nor in the library; the superclass
    /// comes first, then the interfaces in order.
    #[error("a supertype is missing")]
    MissingSuper {
        class: InternalName,
        name: InternalName,
    },
    /// The superclass of the class is final or an interface, or one of its interfaces is a class (JVMS
    /// 4.1).
    #[error("a supertype is of the wrong kind")]
    FinalSuper(InternalName),
    /// The class is a supertype of itself.
    #[error("a class is its own supertype")]
    Circle(InternalName),
    /// There was not enough memory.
    #[error("out of memory")]
    Memory,
}

impl From<AllocError> for WorldFault {
    ghost from_gives = { λ _ e. e ≡ Memory };

    fn from(_: AllocError) -> WorldFault {
        WorldFault::Memory
    }
}

impl<T: Drop> From<AllocFailed<T>> for WorldFault {
    ghost from_gives = { λ _ e. e ≡ Memory };

    fn from(_: AllocFailed<T>) -> WorldFault {
        WorldFault::Memory
    }
}
