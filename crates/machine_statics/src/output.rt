//! The object of `System.out`.

ghost use Rattle.std.specs.Prelude.{◌≡◌, ◌<◌, length, true, IfSome};
ghost use Rattle.std.specs.Str.{bytes_eq};
ghost use Rattle.class_machine.specs.Values.{print_stream_class};
ghost use Rattle.machine_fields.specs.Constants.{IsOutput};

use class_world::World;
use machine_steps::class_name;
use machine_values::{Heap, Maker, Name, Ref};

fn is_print_stream(name: &[u8]) -> bool
    ensures { result ≡ bytes_eq name.now print_stream_class }
{
    name == b"java/io/PrintStream".as_slice()
}

// Whether the object is that of `System.out`: the first one of its class.
fn is_output(world: &World, heap: &Heap, at: Ref) -> bool
    requires { at.0 < length heap.now.names }
    ensures { result ≡ true → IsOutput world.now heap.now at }
{
    match heap.name(at) {
        Name::Made(Maker::Class(class), number) => {
            *number == 1 && is_print_stream(class_name(world, *class))
        }
        _ => false,
    }
}

/// Where the object of `System.out` stands, which each run has from its start.
pub(crate) fn find_output(world: &World, heap: &Heap) -> Option<Ref>
    ensures { IfSome result (λ at. IsOutput world.now heap.now at) }
{
    for place in 0..heap.count() {
        let at = Ref(u32::try_from(place).ok()?);
        if is_output(world, heap, at) {
            return Some(at);
        }
    }
    None
}
