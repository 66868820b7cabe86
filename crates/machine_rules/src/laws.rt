//! The laws, as contracts of functions that do nothing.

ghost use Rattle.class_world.specs.Tables.{Known};
ghost use Rattle.machine_requests.specs.Objects.{BareTypes};
ghost use Rattle.machine_requests.specs.Shares.{Setting};
ghost use Rattle.machine_rules.specs.Library.{HasLibrary};
ghost use Rattle.machine_rules.specs.Works.{IsSettingOf};

/// Texts, arrays and what stands for a class have no fields, in a world that has the library.
pub fn bare_types()
    ensures { (k : Known) (s : Setting) → HasLibrary k → IsSettingOf k s → BareTypes s }
{}
