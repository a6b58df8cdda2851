ghost use Rattle.std.specs.Prelude.{ℕ, ◌≡◌, ◌==◌, ◌&&◌, ◌||◌, not, false, slice_index_or};

use micro_isa::PReg;

/// A set of registers: whether each is of it, by its number.
pub type RegisterSet = [bool; 256];

/// Adds a register.
pub fn add(set: &mut RegisterSet, register: PReg)
    ensures { (q : ℕ) → slice_index_or set.new q false ≡ (register.0 == q || slice_index_or set.old q false) }
{
    set[register.0 as usize] = true;
}

/// Takes a register out.
pub fn take_out(set: &mut RegisterSet, register: PReg)
    ensures { (q : ℕ) → slice_index_or set.new q false ≡ (not (register.0 == q) && slice_index_or set.old q false) }
{
    set[register.0 as usize] = false;
}
