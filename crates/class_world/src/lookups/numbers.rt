//! Numbers of members, which go by class, then by position in it.

ghost use Rattle.std.specs.Prelude.{◌≡◌, ◌+◌, ◌<◌, ◌≤◌, ◌^◌, length, slice_index};
ghost use Rattle.class_world.specs.Found.{StandsAt};

use crate::lookups::members::Found;

/// The number of the member, by the number of each class's first one.
pub(crate) fn number_of(firsts: &[u32], found: Found) -> u32
    requires class { found.class < length firsts.now }
    requires fits { slice_index firsts.now found.class + found.position < 2 ^ 32 }
    ensures { result ≡ slice_index firsts.now found.class + found.position }
{
    firsts[found.class as usize] + found.position as u32
}

/// The member of the number, by the number of each class's first one.
pub(crate) fn member_of(firsts: &[u32], number: u32) -> Found
    requires some { 0 < length firsts.now }
    requires few { length firsts.now ≤ 2 ^ 32 }
    requires first { slice_index firsts.now 0 ≤ number }
    ensures { StandsAt firsts.now number result }
{
    let mut low = 0usize;
    let mut high = firsts.len();
    while low + 1 < high {
        let middle = low + (high - low) / 2;
        if firsts[middle] <= number {
            low = middle;
        } else {
            high = middle;
        }
    }
    Found {
        class: low as u32,
        position: (number - firsts[low]) as usize,
    }
}
