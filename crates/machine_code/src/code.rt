//! Finding the code of methods.

ghost use Rattle.std.specs.Prelude.{◌≡◌, ◌<◌, IsTrue};
ghost use Rattle.std.specs.List.{filter_map, AllByRecursion, sum};
ghost use Rattle.std.specs.Option.{option_map, option_copied};
ghost use Rattle.class_file.specs.WellFormed.{is_well_formed};
ghost use Rattle.class_heads.specs.Searches.{MemberPlace};
ghost use Rattle.class_heads.specs.Numbers.{IsNumbered, number_of, method_counts};
ghost use Rattle.class_machine.specs.ClassFiles as machine;
ghost use Rattle.machine_code.specs.Programs.{placed_code, method_name, IsProgram, IsFirst};
ghost use Rattle.machine_code.specs.Views.{code_seen};

use crate::method_code::MethodCode;
use aj_names::MethodId;
use class_file::{Attribute, CodeAttr, Content, Member};
use class_world::World;

fn first_code(attributes: &[Attribute]) -> Option<&CodeAttr>
    ensures { option_copied result ≡ machine.first_of (filter_map machine.code_in attributes.now) }
{
    for attribute in attributes {
        if let Content::Code(code) = &attribute.content {
            return Some(code);
        }
    }
    None
}

fn code_in(member: &Member) -> Option<&CodeAttr>
    ensures { option_copied result ≡ machine.code_of member.now }
{
    first_code(member.attributes.as_slice())
}

/// The code of a method, or `None` where it has none (JVMS 4.7.3): that of the class's method at the
/// method's position, and in a program, where the method is the first of its name and descriptor in its
/// class, the code that goes by these names.
pub fn code_of(world: &World, method: MethodId) -> Option<MethodCode<'_>>
    requires there { method.0 < sum (method_counts world.now.heads) }
    requires formed { AllByRecursion (λ c. IsTrue (is_well_formed c)) world.now.files }
    ensures placed { (place : MemberPlace) → IsNumbered (method_counts world.now.heads) method.0 place → option_map code_seen result ≡ placed_code world.now.files place }
    ensures named { (place : MemberPlace) → IsProgram world.now.files world.now.heads → IsFirst world.now.heads place → method.0 ≡ number_of (method_counts world.now.heads) place
        → option_map code_seen result ≡ machine.method_code world.now.files (method_name world.now.heads place) }
{
    let (class, position) = world.method_at(method);
    let file = world.file(class)?;
    let member = file.methods.get(position as usize)?;
    let code = code_in(member)?;
    Some(MethodCode {
        pool: file.pool.as_slice(),
        code,
    })
}
