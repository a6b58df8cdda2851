ghost use Rattle.std.specs.Prelude.{ℕ, ◌≡◌, ◌<◌, ◌≤◌, ◌⊎◌, ◌↔◌, length, slice_index};
ghost use Rattle.std.specs.List.{All};
ghost use Rattle.flow_graph.specs.Paths.{IsClosedCode};
ghost use Rattle.liveness.specs.Lives.{IsLiveOf};
ghost use Rattle.range_colour.specs.Groups.{Among};
ghost use Rattle.range_colour.specs.Settling.{AllHalfMeet, HalfMeet, In, IsGathered, MeetBy};

use liveness::{Live, crossing, take_least, values_after};
use micro_isa::{Line, MOST_REGISTERS};

/// The registers of a group of instructions, and those that cross in it.
#[derive(Clone, Copy, Debug)]
pub struct Group {
    pub registers: u128,
    pub crossing: u128,
}

/// The group of these instructions. `meets` then has, for each register, those that it meets there.
pub fn gather(code: &[Line], live: &Live, members: &[u32], meets: &mut [u128]) -> Group
    requires closed { IsClosedCode code.now }
    requires live { IsLiveOf code.now live.now }
    requires members { All (λ i. i < length code.now) members.now }
    requires long { length meets.old ≡ MOST_REGISTERS }
    ensures { IsGathered code.now (Among members.now) result.registers result.crossing meets.new }
{
    clear(meets);
    let mut group = Group {
        registers: 0,
        crossing: 0,
    };
    let mut last = 0;
    'members: for at in 0..members.len() {
        let i = members[at] as usize;
        let before = live.live_in(members[at]);
        let after = values_after(code, live, i);
        last = join(meets, last, before);
        last = join(meets, last, after);
        group.registers |= before | after;
        group.crossing |= crossing(code, live, i);
    }
    close(meets, group.registers);
    group
}

/// Nothing meets yet.
fn clear(meets: &mut [u128])
    ensures { (j k : ℕ) → In (slice_index meets.new k) j → ⊥ }
{
    'registers: for set in meets.iter_mut() {
        *set = 0;
    }
}

/// Makes all of the set meet, one way round. Those of `last` do already, so only the others are
/// told of it. The set whose registers are known to meet now.
fn join(meets: &mut [u128], last: u128, set: u128) -> u128
    requires long { length meets.old ≡ MOST_REGISTERS }
    requires last { AllHalfMeet meets.old last }
    ensures exact { (j k : ℕ) → HalfMeet meets.new j k ↔ (HalfMeet meets.old j k ⊎ (In set j × In set k)) }
    ensures last { AllHalfMeet meets.new result }
{
    let others = set & !last;
    if others == 0 {
        return last;
    }
    tell(meets, others, set);
    set
}

/// Tells each of these registers that it meets all of the set.
fn tell(meets: &mut [u128], registers: u128, set: u128)
    requires { length meets.old ≡ MOST_REGISTERS }
    ensures { (j k : ℕ) → MeetBy meets.new j k ↔ (MeetBy meets.old j k ⊎ (In registers k × In set j)) }
{
    let mut rest = registers;
    'registers: while let Some(register) = take_least(&mut rest) {
        meets[register.0 as usize] |= set;
    }
}

/// Tells those that these registers were told of about them, so that both know.
fn close(meets: &mut [u128], registers: u128)
    requires { length meets.old ≡ MOST_REGISTERS }
    ensures { (j k : ℕ) → MeetBy meets.new j k ↔ (MeetBy meets.old j k ⊎ (In registers j × MeetBy meets.old k j)) }
{
    let mut rest = registers;
    'registers: while let Some(register) = take_least(&mut rest) {
        let told = meets[register.0 as usize];
        tell(meets, told, 1 << register.0);
    }
}

/// One above the greatest register of the set.
pub fn width(set: u128) -> usize
    ensures above { (k : ℕ) → In set k → k < result }
    ensures few { result ≤ 128 }
{
    128 - set.leading_zeros() as usize
}
