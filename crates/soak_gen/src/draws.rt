ghost use Rattle.std.specs.Prelude.{◌≡◌, ◌<◌};
ghost use Rattle.soak_gen.specs.Draws.{next, draw};

/// Draws a number below `below`, and goes on to the next state.
#[tactic(auto, unfolding(crate::specs::Draws::next, crate::specs::Draws::draw))]
pub(crate) fn draw(state: &mut u32, below: u32) -> u32
    requires { 0 < below }
    ensures value { result ≡ draw below state.old }
    ensures under { result < below }
    ensures state { state.new ≡ next state.old }
{
    *state = ((u64::from(*state) * 1_664_525 + 1_013_904_223) % 4_294_967_296) as u32;
    *state / 65_536 % below
}
