//! Which events may happen, and how a run ended.

ghost use Rattle.std.specs.Prelude.{◌≡◌, Some};
ghost use Rattle.std.specs.List.{list_any, list_all};
ghost use Rattle.std.specs.Option.{option_copied};
ghost use Rattle.semantics.specs.Core.{can_go_on, has_ended, illegal_fed, illegal_unplugged};

use world::{ChannelKind, ChannelQueue, Illegal, Phase, PortState, World};

pub(crate) fn can_go_on(world: &World, phase: Option<Phase>) -> bool
    ensures { result ≡ can_go_on world.now phase }
{
    match phase {
        Some(Phase::Ready | Phase::Due(_)) => true,
        Some(Phase::Receiving(channel)) => world.can_receive(channel),
        Some(Phase::Sending { channel, .. }) => world.can_send(channel),
        _ => false,
    }
}

/// Why a word may not be fed to a channel.
pub(crate) fn illegal_fed(channel: Option<&ChannelQueue>) -> Option<Illegal>
    ensures { result ≡ illegal_fed (option_copied channel.entry) }
{
    match channel {
        Some(queue) if matches!(queue.kind(), ChannelKind::Incoming) => match queue.port() {
            PortState::Absent => Some(Illegal::NoPort),
            PortState::Plugged if queue.has_room() => None,
            PortState::Plugged => Some(Illegal::Full),
            PortState::Unplugged => Some(Illegal::Unplugged),
        },
        _ => Some(Illegal::NoPort),
    }
}

/// Why the port of a channel may not be unplugged.
pub(crate) fn illegal_unplugged(channel: Option<&ChannelQueue>) -> Option<Illegal>
    ensures { result ≡ illegal_unplugged (option_copied channel.entry) }
{
    match channel.map(|queue| queue.port()) {
        Some(PortState::Plugged) => None,
        Some(PortState::Unplugged) => Some(Illegal::Unplugged),
        Some(PortState::Absent) | None => Some(Illegal::NoPort),
    }
}

fn has_ended(phase: Phase) -> bool
    ensures { result ≡ has_ended phase }
{
    matches!(phase, Phase::Halted | Phase::Trapped { .. })
}

pub(crate) fn all_ended(phases: &[Phase]) -> bool
    ensures { result ≡ list_all has_ended phases.now }
{
    phases.iter().all(|phase| has_ended(*phase))
}

pub(crate) fn some_runnable(world: &World, phases: &[Phase]) -> bool
    ensures { result ≡ list_any (λ p. can_go_on world.now (Some p)) phases.now }
{
    phases.iter().any(|phase| can_go_on(world, Some(*phase)))
}
